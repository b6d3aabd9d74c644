// CIPHER of FIPS 197 on two blocks under two key schedules, round by round in step: neither waits for the other.
// A block has 16 bytes, here four words of 32 bits; a table has 256 words, a schedule 60 words.
// Proved: each result is the definition's for its own schedule and block, whatever the other is.
#![tactic(auto)]

ghost use Rattle.std.specs.Prelude.{◌≡◌, length};
ghost use Rattle.aes_rules.specs.Cipher.{cipher};
ghost use Rattle.aes_words.specs.Words.{bytes_of};
ghost use Rattle.aes_tables.specs.Tables.{FourTables};

use aes_keys::ROUNDS;

// Two blocks, or what became of them.
#[derive(Clone, Copy)]
pub struct Pair {
    pub first: [u32; 4],
    pub second: [u32; 4],
}

// CIPHER of s under the schedule w, and of z under the schedule v.
pub fn encrypt_pair(
    t0: &[u32; 256],
    t1: &[u32; 256],
    t2: &[u32; 256],
    t3: &[u32; 256],
    w: &[u32],
    v: &[u32],
    s: [u32; 4],
    z: [u32; 4],
) -> Pair
    requires four_tables { FourTables t0.now t1.now t2.now t3.now }
    requires w_len { length w.now ≡ 60 }
    requires v_len { length v.now ≡ 60 }
    ensures first_value { bytes_of result.first ≡ cipher (bytes_of w.now) (bytes_of s) }
    ensures second_value { bytes_of result.second ≡ cipher (bytes_of v.now) (bytes_of z) }
{
    let mut a = aes_word_rounds::add_first_key(w, s);
    let mut b = aes_word_rounds::add_first_key(v, z);
    for r in 1..ROUNDS {
        let x = aes_word_rounds::round_of(t0, t1, t2, t3, w, r, a);
        let y = aes_word_rounds::round_of(t0, t1, t2, t3, v, r, b);
        a = x;
        b = y;
    }
    let first = aes_word_rounds::last_round(t2, w, a);
    let second = aes_word_rounds::last_round(t2, v, b);
    Pair { first, second }
}
