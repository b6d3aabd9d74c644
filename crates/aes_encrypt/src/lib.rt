// CIPHER of FIPS 197: AES-256 on one block, from a key schedule.
// A block has 16 bytes, a schedule 240 bytes.
// Proved: the result is the definition's, for every schedule and block.
#![tactic(auto)]

ghost use Rattle.std.specs.Prelude.{◌≡◌, ◌<◌, [], ◌∷◌, length, slice_index};
ghost use Rattle.aes_field.specs.Field.{sub_byte};
ghost use Rattle.aes_field.specs.Tables.{sbox};
ghost use Rattle.aes_rules.specs.Cipher.{sub_bytes, shift_rows, mix_row, mix_columns, cipher};

use aes_bytes::{sub_byte, x_times};
use aes_keys::{ROUNDS, round_key};
use octets::xor_blocks;
use std::array;

fn sub_bytes(table: &[u8; 256], s: [u8; 16]) -> [u8; 16]
    requires { table.now ≡ sbox }
    ensures { result ≡ sub_bytes s }
{
    // By from_fn: `s.map(..)` proves too, and this step then takes three times as long.
    array::from_fn(
        |i| -> u8
            requires table_value { table.now ≡ sbox }
            requires i_bound { i < 16 }
            ensures { result ≡ sub_byte (slice_index s i) }
        { sub_byte(table, s[i]) },
    )
}

// Byte i is in row i % 4; its row is shifted to the left by as many columns of 4 bytes.
fn shift_rows(s: [u8; 16]) -> [u8; 16]
    ensures { result ≡ shift_rows s }
{
    array::from_fn(|i| s[(i + 4 * (i % 4)) % 16])
}

// The product of MixColumns' matrix with one column. Each byte needs the column's sum and one double.
fn mix_column(a: u8, b: u8, c: u8, d: u8) -> [u8; 4]
    ensures { result ≡ mix_row a b c d ∷ mix_row b c d a ∷ mix_row c d a b ∷ mix_row d a b c ∷ [] }
{
    let sum = a ^ (b ^ (c ^ d));
    [
        a ^ (sum ^ x_times(a ^ b)),
        b ^ (sum ^ x_times(b ^ c)),
        c ^ (sum ^ x_times(c ^ d)),
        d ^ (sum ^ x_times(d ^ a)),
    ]
}

fn mix_columns(s: [u8; 16]) -> [u8; 16]
    ensures { result ≡ mix_columns s }
{
    let mut r = s;
    for c in 0..4 {
        let i = 4 * c;
        octets::put(&mut r, i, &mix_column(s[i], s[i + 1], s[i + 2], s[i + 3]));
    }
    r
}

// CIPHER: 14 rounds, the last with no MixColumns. The S-box's table is handed in.
pub fn encrypt_block(table: &[u8; 256], w: &[u8], s: [u8; 16]) -> [u8; 16]
    requires table_value { table.now ≡ sbox }
    requires w_len { length w.now ≡ 240 }
    ensures { result ≡ cipher w.now s }
{
    let mut t = xor_blocks(s, round_key(w, 0));
    for r in 1..ROUNDS {
        t = xor_blocks(
            mix_columns(shift_rows(sub_bytes(table, t))),
            round_key(w, r),
        );
    }
    xor_blocks(shift_rows(sub_bytes(table, t)), round_key(w, ROUNDS))
}
