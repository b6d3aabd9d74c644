// PAIR's first step (RULES 6.8): the verdict of its checks, and its reply where they hold, with both cryptograms hashed from the pairing secret.
// Every length and count is in bytes.
// Proved: the verdict, the reply and each byte of the buffer are what the step's rule gives, for every card, data and supply.
#![tactic(auto)]

ghost use Rattle.std.specs.Prelude.{◌≡◌, true, ◌++◌, ◌≤◌, length};
ghost use Rattle.sha_rules.specs.Hash.{sha256};
ghost use Rattle.rules.specs.Words.{verdict};
ghost use Rattle.rules.specs.Code.{Replies};
ghost use Rattle.rules.specs.Supplies.{suits, pair_first_supply};
ghost use Rattle.rules.specs.Commands.{pair_first_checks, pending_with, pair_first_reply};

use card::{Card, KEY_BYTES, Pairing, STAGE_AUTHENTICATED};
use command_parts::{must, part, put_both, reads, replied, with_pairing};
use rules::{CONDITIONS_NOT_MET, NO_SPACE, Replied, Verdict, WRONG_DATA};

// A client's challenge and its cryptogram, in bytes.
pub const PAIR_DATA_BYTES: usize = 32;

// The first step's supply: the card's challenge.
const FIRST_SUPPLY: u8 = 4;

const FIRST_SUPPLY_BYTES: usize = 32;

// What is hashed: the pairing secret, then a challenge or the salt.
const HASHED_BYTES: usize = KEY_BYTES + KEY_BYTES;

// What the pairing secret and 32 bytes after it hash to: a cryptogram from the challenge of the other side, the pairing key from the salt.
pub fn with_secret(secret: [u8; KEY_BYTES], x: [u8; KEY_BYTES]) -> [u8; KEY_BYTES]
    ensures { result ≡ sha256 (secret ++ x) }
{
    let mut message = [0u8; HASHED_BYTES];
    put_both(&mut message, &secret, &x);
    sha_hash::sha256(&message)
}

#[tactic(auto, unfolding(rules::specs::Commands::pair_first_checks))]
pub fn pair_first_verdict(pairing: Pairing, stage: u8, data: &[u8]) -> Verdict
    ensures { result ≡ verdict pair_first_supply (pair_first_checks pairing stage «data».now) }
{
    must(stage != STAGE_AUTHENTICATED, CONDITIONS_NOT_MET)?;
    must(data.len() == PAIR_DATA_BYTES, WRONG_DATA)?;
    must(card_slots::has_free(pairing.slots), NO_SPACE)?;
    reads(FIRST_SUPPLY, FIRST_SUPPLY_BYTES, false)
}

// The pairing with a pending one, which takes the place of one before it.
fn pending_with(pairing: Pairing, expected: [u8; KEY_BYTES]) -> Pairing
    ensures { result ≡ pending_with pairing expected }
{
    let mut next = pairing;
    next.pending = 1;
    next.expected = expected;
    next
}

pub fn pair_first(card: Card, data: &[u8], supply: &[u8], out: &mut [u8]) -> Replied
    requires data_len { length «data».now ≡ 32 }
    requires supply_value { (suits pair_first_supply supply.now ≡ true) × (221 ≤ length out.old) }
    ensures { Replies (pair_first_reply card «data».now supply.now) result out.old out.new }
{
    let before = card.pairing;
    let secret = before.secret;
    let client = part(data, 0);
    let challenge = part(supply, 0);
    let cryptogram = with_secret(secret, client);
    let expected = with_secret(secret, challenge);
    let count = put_both(out, &cryptogram, &challenge);
    let pairing = pending_with(before, expected);
    replied(with_pairing(card, pairing), count)
}
