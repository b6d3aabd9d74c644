// UNPAIR (RULES 6.9): the verdict of its check, and its reply where that holds.
// A slot's index counts slots from 0; an index that no slot has changes nothing.
// Proved: the verdict and the reply are what the command's rule gives, for every card and every index.
#![tactic(auto)]

ghost use Rattle.std.specs.Prelude.{◌≡◌, set};
ghost use Rattle.card.specs.State.{free_slot};
ghost use Rattle.rules.specs.Words.{verdict};
ghost use Rattle.rules.specs.Code.{replied_of};
ghost use Rattle.rules.specs.Supplies.{no_supply};
ghost use Rattle.rules.specs.Commands.{with_slot, unpair_checks, unpair_reply};

use card::{Card, KEY_BYTES, Pairing, Pins, Slot, wide};
use command_parts::{done, must, reads_none, with_pairing};
use rules::{CONDITIONS_NOT_MET, Replied, Verdict};

#[tactic(auto, unfolding(rules::specs::Commands::unpair_checks))]
pub fn unpair_verdict(pins: Pins) -> Verdict
    ensures { result ≡ verdict no_supply (unpair_checks pins) }
{
    must(pins.verified != 0, CONDITIONS_NOT_MET)?;
    reads_none()
}

// The slots with the one of this index free.
fn freed(mut slots: [Slot; Card::SLOTS], i: usize) -> [Slot; Card::SLOTS]
    ensures { result ≡ set slots i free_slot }
{
    let free = Slot {
        filled: 0,
        key: [0; KEY_BYTES],
    };
    if i < Card::SLOTS {
        slots[i] = free;
    }
    slots
}

// The pairing with the slot of this index free.
fn with_free(mut pairing: Pairing, i: usize) -> Pairing
    ensures { result ≡ with_slot pairing i free_slot }
{
    let slots = pairing.slots;
    let next = freed(slots, i);
    pairing.slots = next;
    pairing
}

pub fn unpair(card: Card, slot: u8) -> Replied
    ensures { result ≡ replied_of (unpair_reply card slot) }
{
    let pairing = card.pairing;
    let freed = with_free(pairing, wide(slot));
    done(with_pairing(card, freed))
}
