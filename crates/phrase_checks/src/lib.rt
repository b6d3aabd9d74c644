// What is asked of word numbers before they are taken: their count, that each has 11 bits, and their checksum.
// Words and entropy are in bytes, the checksum in bits.
// Proved: each check is the definition's.
#![tactic(auto)]

ghost use Rattle.std.specs.Prelude.{◌≡◌, ◌/◌, length};
ghost use Rattle.phrase_rules.specs.Reverse.{from_two_bytes, entropy_in, is_word_count, Counted, in_eleven_bits, is_checked};

use phrase_bits::number_in;

// The largest number of 11 bits.
const NUMBER_MAX: u32 = 2047;

// For each bit of the checksum there are 3 numbers, in 6 bytes.
pub const WORD_BYTES_PER_CHECKSUM_BIT: usize = 6;

const NUMBERS_PER_CHECKSUM_BIT: usize = 3;

// The least and the most that a checksum has, in bits.
const CHECKSUM_MIN_BITS: usize = 4;

const CHECKSUM_MAX_BITS: usize = 8;

// Whether there are 12, 15, 18, 21 or 24 numbers of 2 bytes.
pub fn is_word_count(words: &[u8]) -> bool
    ensures { result ≡ is_word_count words.now }
{
    let bytes = words.len();
    let checksum_bits = bytes / WORD_BYTES_PER_CHECKSUM_BIT;
    let whole = bytes % WORD_BYTES_PER_CHECKSUM_BIT == 0;
    whole & ((CHECKSUM_MIN_BITS <= checksum_bits) & (checksum_bits <= CHECKSUM_MAX_BITS))
}

// Whether no number is over 2047.
pub fn in_eleven_bits(words: &[u8]) -> bool
    ensures { result ≡ in_eleven_bits (from_two_bytes words.now) }
{
    for k in 0..words.len() / 2 {
        if number_in(words, k) > NUMBER_MAX {
            return false;
        }
    }
    true
}

// Whether the words' last bits are the checksum of their entropy: the highest bits of the first byte of its SHA-256.
pub fn is_checked(words: &[u8], entropy: &[u8]) -> bool
    requires counted { Counted (length words.now / 6) words.now }
    requires entropy_value { entropy.now ≡ entropy_in words.now }
    ensures { result ≡ is_checked words.now }
{
    let checksum_bits = words.len() / WORD_BYTES_PER_CHECKSUM_BIT;
    let digest = sha_hash::sha256(entropy);
    let last = phrase_bits::low_bits_in(words, NUMBERS_PER_CHECKSUM_BIT * checksum_bits - 1);
    phrase_bits::bits_at(last, 0, checksum_bits)
        == phrase_bits::first_bits(digest[0], checksum_bits)
}
