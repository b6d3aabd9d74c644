// KEYEXPANSION of FIPS 197: the key schedule of AES-256.
// A key has 32 bytes, a word 4 bytes, a schedule 240 bytes.
// Proved: the schedule is the definition's, for every key.
#![tactic(auto)]

ghost use Rattle.std.specs.Prelude.{◌≡◌, ◌+◌, ◌≤◌, ◌<◌, length};
ghost use Rattle.octets.specs.Bytes.{xor_bytes};
ghost use Rattle.aes_field.specs.Tables.{sbox};
ghost use Rattle.aes_rules.specs.Cipher.{round_key};
ghost use Rattle.aes_rules.specs.Schedule.{rot_word, sub_word, rcon, word_at, next_word, key_expansion};

use aes_bytes::sub_byte;
use octets::{BLOCK_BYTES, xor_blocks};

// A key of AES-256 and its schedule, in bytes.
pub const KEY_BYTES: usize = 32;

pub const SCHEDULE_BYTES: usize = 240;

// The same in words.
const KEY_WORDS: usize = 8;

const SCHEDULE_WORDS: usize = 60;

// Rounds of AES-256 (FIPS 197, table 3).
pub const ROUNDS: usize = 14;

// The word that begins at byte `at`.
fn word_at(w: &[u8], at: usize) -> [u8; 4]
    requires { at + 4 ≤ length w.now }
    ensures { result ≡ word_at w.now at }
{
    *w[at..at + 4].as_array().unwrap()
}

fn rot_word(t: [u8; 4]) -> [u8; 4]
    ensures { result ≡ rot_word t }
{
    [t[1], t[2], t[3], t[0]]
}

fn sub_word(table: &[u8; 256], t: [u8; 4]) -> [u8; 4]
    requires { table.now ≡ sbox }
    ensures { result ≡ sub_word t }
{
    t.map(|b| sub_byte(table, b))
}

// Rcon[j], for the j that AES-256 uses.
fn round_constant(j: usize) -> [u8; 4]
    requires { (1 ≤ j) × (j ≤ 7) }
    ensures { result ≡ rcon j }
{
    [1u8 << (j - 1), 0, 0, 0]
}

// The word after those that w holds.
fn next_word(table: &[u8; 256], w: &[u8]) -> [u8; 4]
    requires table_value { table.now ≡ sbox }
    requires in_bounds { (32 ≤ length w.now) × (length w.now < 240) }
    ensures { result ≡ next_word w.now }
{
    let n = w.len();
    let i = n / 4;
    let old = word_at(w, n - KEY_BYTES);
    let temp = word_at(w, n - 4);
    let k = i % 8;
    if k == 0 {
        return xor_blocks(
            old,
            xor_blocks(sub_word(table, rot_word(temp)), round_constant(i / 8)),
        );
    }
    if k == 4 {
        return xor_blocks(old, sub_word(table, temp));
    }
    xor_blocks(old, temp)
}

// KEYEXPANSION: from the key's 8 words to 60, word by word. The S-box's table is handed in.
pub fn key_expansion(table: &[u8; 256], key: &[u8; 32]) -> [u8; 240]
    requires { table.now ≡ sbox }
    ensures { result ≡ key_expansion key.now }
{
    let mut w = [0u8; SCHEDULE_BYTES];
    octets::put(&mut w, 0, key);
    for i in KEY_WORDS..SCHEDULE_WORDS {
        let n = i * 4;
        let word = next_word(table, &w[..n]);
        octets::put(&mut w, n, &word);
    }
    w
}

// The 16 bytes of a schedule that round r uses.
pub fn round_key(w: &[u8], r: usize) -> [u8; 16]
    requires { (length w.now ≡ 240) × (r ≤ 14) }
    ensures { result ≡ round_key w.now r }
{
    let at = r * 16;
    octets::block(&w[at..at + BLOCK_BYTES])
}
