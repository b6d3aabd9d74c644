// The rounds of AES-256 on a state of four words of 32 bits, from the four tables.
// A word of the state is a column, a table has 256 words, a schedule 60 words.
// Proved: each gives the bytes that the definition gives, for every schedule and state.
#![tactic(auto)]

ghost use Rattle.std.specs.Prelude.{◌≡◌, ◌≤◌, length};
ghost use Rattle.aes_rules.specs.Cipher.{sub_bytes, shift_rows, add_round_key, round_key, round};
ghost use Rattle.aes_words.specs.Words.{bytes_of};
ghost use Rattle.aes_tables.specs.Tables.{table2, FourTables};

use aes_word_columns::{mix_column, sub_column};

// The first round key added.
pub fn add_first_key(w: &[u32], s: [u32; 4]) -> [u32; 4]
    requires { length w.now ≡ 60 }
    ensures { bytes_of result ≡ add_round_key (bytes_of s) (round_key (bytes_of w.now) 0) }
{
    [s[0] ^ w[0], s[1] ^ w[1], s[2] ^ w[2], s[3] ^ w[3]]
}

// Round r: column c takes its row i from column c + i of the state.
pub fn round_of(
    t0: &[u32; 256],
    t1: &[u32; 256],
    t2: &[u32; 256],
    t3: &[u32; 256],
    w: &[u32],
    r: usize,
    s: [u32; 4],
) -> [u32; 4]
    requires four_tables { FourTables t0.now t1.now t2.now t3.now }
    requires w_len { length w.now ≡ 60 }
    requires r_bound { r ≤ 14 }
    ensures { bytes_of result ≡ round (bytes_of w.now) r (bytes_of s) }
{
    let i = r * 4;
    [
        mix_column(t0, t1, t2, t3, w[i], s[0], s[1], s[2], s[3]),
        mix_column(t0, t1, t2, t3, w[i + 1], s[1], s[2], s[3], s[0]),
        mix_column(t0, t1, t2, t3, w[i + 2], s[2], s[3], s[0], s[1]),
        mix_column(t0, t1, t2, t3, w[i + 3], s[3], s[0], s[1], s[2]),
    ]
}

// The last round, which has no MixColumns.
pub fn last_round(t2: &[u32; 256], w: &[u32], s: [u32; 4]) -> [u32; 4]
    requires t2_value { t2.now ≡ table2 }
    requires w_len { length w.now ≡ 60 }
    ensures { bytes_of result ≡ add_round_key (shift_rows (sub_bytes (bytes_of s))) (round_key (bytes_of w.now) 14) }
{
    [
        sub_column(t2, s[0], s[1], s[2], s[3]) ^ w[56],
        sub_column(t2, s[1], s[2], s[3], s[0]) ^ w[57],
        sub_column(t2, s[2], s[3], s[0], s[1]) ^ w[58],
        sub_column(t2, s[3], s[0], s[1], s[2]) ^ w[59],
    ]
}
