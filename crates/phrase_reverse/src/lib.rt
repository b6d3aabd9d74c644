// From the bytes of word numbers back to their entropy.
// Words, entropy and buffer are in bytes, the checksum in bits.
// Proved: the answer, and every byte of the buffer, is the definition's, refusals too.
#![tactic(auto)]

ghost use Rattle.std.specs.Prelude.{◌≡◌, cond, ◌*◌, ◌/◌, eqb, length, take};
ghost use Rattle.refusals.specs.Refusals.{no_refusal};
ghost use Rattle.phrase_rules.specs.Reverse.{entropy_in, Counted, must, words_refusal};
ghost use Rattle.phrase_reverse.specs.Reversed.{Reversed};

use phrase_bits::ENTROPY_BYTES_PER_CHECKSUM_BIT;
use phrase_checks::{WORD_BYTES_PER_CHECKSUM_BIT, in_eleven_bits, is_checked, is_word_count};
use refusals::{
    ENTROPY_ROOM_BYTES, REFUSAL_NONE, REFUSAL_NUMBER_TOO_LARGE, REFUSAL_ROOM,
    REFUSAL_WRONG_CHECKSUM, REFUSAL_WRONG_COUNT,
};

// What is answered: the refusal's number, or 0 for none, and how many bytes of entropy were written.
// A number beside the count, and no Result: `Reversed` promises the count, 0, on a refusal too, and the library hands both on to C.
#[derive(Clone, Copy)]
pub struct Entropy {
    pub refusal: u8,
    pub count: usize,
}

// The entropy that the words' bits begin with, from the array's start.
fn entropy_in(words: &[u8]) -> [u8; 32]
    requires { Counted (length words.now / 6) words.now }
    ensures { take (4 * (length words.now / 6)) result ≡ entropy_in words.now }
{
    let end = ENTROPY_BYTES_PER_CHECKSUM_BIT * (words.len() / WORD_BYTES_PER_CHECKSUM_BIT);
    let mut entropy = [0u8; ENTROPY_ROOM_BYTES];
    for k in 0..end {
        entropy[k] = phrase_bits::byte_at(words, k) as u8;
    }
    entropy
}

// The refusal where a check does not hold.
fn refusal_unless(holds: bool, refusal: u8) -> u8
    ensures { result ≡ must holds refusal no_refusal }
{
    if holds {
        return REFUSAL_NONE;
    }
    refusal
}

// The first refusal, or where that is none the second.
fn first_of(first: u8, second: u8) -> u8
    ensures { result ≡ cond (eqb first no_refusal) second first }
{
    if first == REFUSAL_NONE {
        return second;
    }
    first
}

// The refusal for the numbers, and then for their checksum.
fn judged(words: &[u8], entropy: &[u8]) -> u8
    requires counted { Counted (length words.now / 6) words.now }
    requires entropy_value { entropy.now ≡ entropy_in words.now }
    ensures { result ≡ words_refusal words.now }
{
    let number = refusal_unless(in_eleven_bits(words), REFUSAL_NUMBER_TOO_LARGE);
    let checksum = refusal_unless(is_checked(words, entropy), REFUSAL_WRONG_CHECKSUM);
    first_of(number, checksum)
}

fn refused(refusal: u8) -> Entropy
    ensures { result ≡ record { refusal = refusal; count = 0 } }
{
    Entropy { refusal, count: 0 }
}

// The entropy of word numbers, from the buffer's start (RULES 7.12).
pub fn entropy_of(words: &[u8], buf: &mut [u8]) -> Entropy
    ensures { Reversed words.now result buf.old buf.new }
{
    if buf.len() < ENTROPY_ROOM_BYTES {
        return refused(REFUSAL_ROOM);
    }
    if !is_word_count(words) {
        return refused(REFUSAL_WRONG_COUNT);
    }
    let count = ENTROPY_BYTES_PER_CHECKSUM_BIT * (words.len() / WORD_BYTES_PER_CHECKSUM_BIT);
    let entropy = entropy_in(words);
    let refusal = judged(words, &entropy[..count]);
    if refusal != REFUSAL_NONE {
        return refused(refusal);
    }
    octets::put(buf, 0, &entropy[..count]);
    Entropy {
        refusal: REFUSAL_NONE,
        count,
    }
}
