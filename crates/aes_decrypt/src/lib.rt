// INVCIPHER of FIPS 197: the inverse of AES-256 on one block, from a key schedule.
// A block has 16 bytes, a schedule 240 bytes.
// Proved: the result is the definition's, for every schedule and block.
#![tactic(auto)]

ghost use Rattle.std.specs.Prelude.{◌≡◌, ◌<◌, [], ◌∷◌, length, slice_index};
ghost use Rattle.aes_field.specs.Field.{inv_sub_byte};
ghost use Rattle.aes_field.specs.Tables.{inv_sbox};
ghost use Rattle.aes_rules.specs.InvCipher.{inv_shift_rows, inv_sub_bytes, inv_mix_row, inv_mix_columns, inv_cipher};

use aes_bytes::{inv_sub_byte, products_of};
use aes_keys::{ROUNDS, round_key};
use octets::xor_blocks;
use std::array;

// Byte i is in row i % 4; its row is shifted to the right by as many columns of 4 bytes, so to the left by 12 bytes for each.
fn inv_shift_rows(s: [u8; 16]) -> [u8; 16]
    ensures { result ≡ inv_shift_rows s }
{
    array::from_fn(|i| s[(i + 12 * (i % 4)) % 16])
}

fn inv_sub_bytes(table: &[u8; 256], s: [u8; 16]) -> [u8; 16]
    requires { table.now ≡ inv_sbox }
    ensures { result ≡ inv_sub_bytes s }
{
    // By from_fn: `s.map(..)` proves too, and this step then takes three times as long.
    array::from_fn(
        |i| -> u8
            requires table_value { table.now ≡ inv_sbox }
            requires i_bound { i < 16 }
            ensures { result ≡ inv_sub_byte (slice_index s i) }
        { inv_sub_byte(table, s[i]) },
    )
}

// The product of InvMixColumns' matrix with one column. Each byte's products are made once; a row takes those of the four bytes in turn.
fn inv_mix_column(a: u8, b: u8, c: u8, d: u8) -> [u8; 4]
    ensures { result ≡ inv_mix_row a b c d ∷ inv_mix_row b c d a ∷ inv_mix_row c d a b ∷ inv_mix_row d a b c ∷ [] }
{
    let p = products_of(a);
    let q = products_of(b);
    let r = products_of(c);
    let s = products_of(d);
    [
        p.by_14 ^ (q.by_11 ^ (r.by_13 ^ s.by_9)),
        q.by_14 ^ (r.by_11 ^ (s.by_13 ^ p.by_9)),
        r.by_14 ^ (s.by_11 ^ (p.by_13 ^ q.by_9)),
        s.by_14 ^ (p.by_11 ^ (q.by_13 ^ r.by_9)),
    ]
}

fn inv_mix_columns(s: [u8; 16]) -> [u8; 16]
    ensures { result ≡ inv_mix_columns s }
{
    let mut r = s;
    for c in 0..4 {
        let i = 4 * c;
        octets::put(
            &mut r,
            i,
            &inv_mix_column(s[i], s[i + 1], s[i + 2], s[i + 3]),
        );
    }
    r
}

// INVCIPHER: 14 rounds, the last with no InvMixColumns. The inverse S-box's table is handed in.
pub fn decrypt_block(table: &[u8; 256], w: &[u8], s: [u8; 16]) -> [u8; 16]
    requires table_value { table.now ≡ inv_sbox }
    requires w_len { length w.now ≡ 240 }
    ensures { result ≡ inv_cipher w.now s }
{
    let mut t = xor_blocks(s, round_key(w, ROUNDS));
    for r in (1..ROUNDS).rev() {
        let u = inv_sub_bytes(table, inv_shift_rows(t));
        t = inv_mix_columns(xor_blocks(u, round_key(w, r)));
    }
    xor_blocks(inv_sub_bytes(table, inv_shift_rows(t)), round_key(w, 0))
}
