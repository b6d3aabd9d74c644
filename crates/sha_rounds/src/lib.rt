// A round of SHA-256 on the eight working variables, the sum of two hash values, and the constants.
// A hash value, and the working variables, have 8 words of 32 bits.
// Proved: the constants are the standard's, and each result is the definition's, for all words.
#![tactic(auto)]

ghost use Rattle.std.specs.Prelude.{◌≡◌};
ghost use Rattle.sha_rules.specs.Constants.{K, H⁰};
ghost use Rattle.sha_rules.specs.Hash.{T₁, T₂, round, added};

use sha_words::add;

mod tables;

const HASH_WORDS: usize = 8;

// The 64 constants as a value. A constant table is copied where it is named, so this is called once and its result is handed down.
pub fn constants() -> [u32; 64]
    ensures { result ≡ K }
{
    tables::ROUND_CONSTANTS
}

// The hash value that a message begins with.
pub fn initial_hash() -> [u32; 8]
    ensures { result ≡ H⁰ }
{
    tables::INITIAL_HASH
}

// What is known before e is comes first, so that the word after e waits for two sums alone.
fn temporary_1(e: u32, f: u32, g: u32, h: u32, k: u32, w: u32) -> u32
    ensures { result ≡ T₁ e f g h k w }
{
    let known = add(add(k, w), h);
    add(
        add(known, sha_words::ch(e, f, g)),
        sha_words::big_sigma_1(e),
    )
}

fn temporary_2(a: u32, b: u32, c: u32) -> u32
    ensures { result ≡ T₂ a b c }
{
    add(sha_words::big_sigma_0(a), sha_words::maj(a, b, c))
}

// One round of the working variables a to h.
pub fn round_of(k: u32, w: u32, s: [u32; 8]) -> [u32; 8]
    ensures { result ≡ round k w s }
{
    let t1 = temporary_1(s[4], s[5], s[6], s[7], k, w);
    let t2 = temporary_2(s[0], s[1], s[2]);
    [
        add(t1, t2),
        s[0],
        s[1],
        s[2],
        add(s[3], t1),
        s[4],
        s[5],
        s[6],
    ]
}

// The sum of two hash values, word by word.
pub fn sums(s: [u32; 8], h: [u32; 8]) -> [u32; 8]
    ensures { result ≡ added s h }
{
    let mut r = s;
    for i in 0..HASH_WORDS {
        r[i] = add(s[i], h[i]);
    }
    r
}
