// GENERATE MNEMONIC (RULES 6.22): the verdict of its checks, and its reply where they hold.
// Every length and count is in bytes, the size of a checksum in bits.
// Proved: the verdict, the reply and every byte of the buffer are what the command's rule gives, for every card, all data and every supply.
#![tactic(auto)]

ghost use Rattle.std.specs.Prelude.{◌≡◌, true, ◌*◌, ◌≤◌, length};
ghost use Rattle.rules.specs.Words.{verdict};
ghost use Rattle.rules.specs.Code.{Replies};
ghost use Rattle.rules.specs.Supplies.{suits, mnemonic_supply};
ghost use Rattle.rules.specs.Rows.{checksum_bits};
ghost use Rattle.rules.specs.Commands.{mnemonic_checks, mnemonic_reply};

use card::Card;
use command_parts::{must, reads, replied};
use phrase_bits::ENTROPY_BYTES_PER_CHECKSUM_BIT;
use phrase_numbers::put_numbers;
use rules::{Phrase, Replied, Verdict, WRONG_DATA};

// GENERATE MNEMONIC's supply: the entropy.
const MNEMONIC_SUPPLY: u8 = 10;

// The size of a phrase's checksum in bits, one for each 3 words.
fn checksum_bits(which: Phrase) -> usize
    ensures { result ≡ checksum_bits which }
{
    match which {
        Phrase::Words12 => 4,
        Phrase::Words15 => 5,
        Phrase::Words18 => 6,
        Phrase::Words21 => 7,
        Phrase::Words24 => 8,
    }
}

// The length of the entropy that a phrase is made of.
fn entropy_bytes(which: Phrase) -> usize
    ensures { result ≡ 4 * checksum_bits which }
{
    ENTROPY_BYTES_PER_CHECKSUM_BIT * checksum_bits(which)
}

// ---- GENERATE MNEMONIC D2, without a PIN
#[tactic(auto, unfolding(rules::specs::Commands::mnemonic_checks))]
pub fn mnemonic_verdict(which: Phrase, data: &[u8]) -> Verdict
    ensures { result ≡ verdict (mnemonic_supply (checksum_bits which)) (mnemonic_checks «data».now) }
{
    must(data.len() == 0, WRONG_DATA)?;
    reads(MNEMONIC_SUPPLY, entropy_bytes(which), false)
}

pub fn mnemonic(card: Card, which: Phrase, supply: &[u8], out: &mut [u8]) -> Replied
    requires { (suits (mnemonic_supply (checksum_bits which)) supply.now ≡ true) × (221 ≤ length out.old) }
    ensures { Replies (mnemonic_reply card (checksum_bits which) supply.now) result out.old out.new }
{
    let end = entropy_bytes(which);
    let entropy = &supply[..end];
    let count = put_numbers(entropy, out);
    replied(card, count)
}
