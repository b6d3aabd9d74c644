// PAIR (RULES 6.8), which is plain in every stage: the final step's verdict, and its reply where its checks hold, with the pairing key hashed from the
// pairing secret; the first step is that of command_pair_first, passed on.
// Every length and count is in bytes; a slot's index counts slots from 0.
// Proved: the verdict, the reply and each byte of the buffer are what the step's rule gives, for every card, data and supply.
#![tactic(auto)]

ghost use Rattle.std.specs.Prelude.{◌≡◌, true, ◌≤◌, ◌<◌, length};
ghost use Rattle.card.specs.State.{slot_count, not_pending};
ghost use Rattle.rules.specs.Words.{verdict};
ghost use Rattle.rules.specs.Code.{Replies};
ghost use Rattle.rules.specs.Supplies.{suits, pair_final_supply};
ghost use Rattle.rules.specs.Commands.{pair_final_checks, with_slot, filled_with, pair_final_reply};
ghost use Rattle.command_pair.specs.Parts.{FoundAt};

use card::{Card, KEY_BYTES, Pairing, STAGE_AUTHENTICATED, Slot};
use command_pair_first::{PAIR_DATA_BYTES, with_secret};
pub use command_pair_first::{pair_first, pair_first_verdict};
use command_parts::{failed, must, part, put_both, reads, replied, with_pairing};
use rules::{
    CONDITIONS_NOT_MET, NO_SPACE, Replied, SECURITY_NOT_MET, Verdict, WRONG_DATA, WRONG_PARAMETERS,
};

// The final step's supply: the salt.
const FINAL_SUPPLY: u8 = 5;

const FINAL_SUPPLY_BYTES: usize = 32;

#[tactic(auto, unfolding(rules::specs::Commands::pair_final_checks))]
pub fn pair_final_verdict(pairing: Pairing, stage: u8, data: &[u8]) -> Verdict
    ensures { result ≡ verdict pair_final_supply (pair_final_checks pairing stage «data».now) }
{
    let expected = pairing.expected;
    must(pairing.pending != 0, WRONG_PARAMETERS)?;
    must(stage != STAGE_AUTHENTICATED, CONDITIONS_NOT_MET)?;
    must(data.len() == PAIR_DATA_BYTES, WRONG_DATA)?;
    must(octets::same(data, &expected), SECURITY_NOT_MET)?;
    reads(FINAL_SUPPLY, FINAL_SUPPLY_BYTES, false)
}

// The pairing without a pending one.
fn not_pending(pairing: Pairing) -> Pairing
    ensures { result ≡ not_pending pairing }
{
    let mut next = pairing;
    next.pending = 0;
    next.expected = [0; KEY_BYTES];
    next
}

// The index of the slot found, as a byte.
fn index_byte(slots: [Slot; Card::SLOTS], i: usize) -> u8
    requires { FoundAt slots i }
    ensures { (result ≡ i) × (i < slot_count) }
{
    i as u8
}

// The pairing with the slot of this index filled, and no pending one.
fn filled_at(pairing: Pairing, i: usize, key: [u8; KEY_BYTES]) -> Pairing
    requires { i < slot_count }
    ensures { result ≡ with_slot (not_pending pairing) i (filled_with key) }
{
    let mut next = not_pending(pairing);
    let slot = Slot { filled: 1, key };
    next.slots[i] = slot;
    next
}

pub fn pair_final(card: Card, supply: &[u8], out: &mut [u8]) -> Replied
    requires { (suits pair_final_supply supply.now ≡ true) × (221 ≤ length out.old) }
    ensures { Replies (pair_final_reply card supply.now) result out.old out.new }
{
    let before = card.pairing;
    let slots = before.slots;
    let secret = before.secret;
    let Some(i) = card_slots::first_free(slots) else {
        let pairing = not_pending(before);
        return failed(with_pairing(card, pairing), NO_SPACE);
    };
    let index = [index_byte(slots, i)];
    let salt = part(supply, 0);
    let key = with_secret(secret, salt);
    let count = put_both(out, &index, &salt);
    let pairing = filled_at(before, i, key);
    replied(with_pairing(card, pairing), count)
}
