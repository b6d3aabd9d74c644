// Whether pairing secret, slots and a pending pairing are sound, and whether they are blank, as before INIT.
// Every length is in bytes.
// Proved: each answer is this part's line in the definition of soundness, whatever the part's bytes.
#![tactic(auto)]

ghost use Rattle.std.specs.Prelude.{◌≡◌};
ghost use Rattle.card.specs.Slots.{all_of, slot_within};
ghost use Rattle.card.specs.Sound.{pairing_sound, pairing_blank};

use card::{Card, Pairing, Slot};
use sound_bytes::zero_from;

// Whether the slot's flag is at most `most`, and its key zero if the slot is free.
fn slot_within(s: Slot, most: u8) -> bool
    ensures { result ≡ slot_within most s }
{
    let key = s.key;
    let flag = s.filled <= most;
    let filled = s.filled != 0;
    let clear = zero_from(&key, 0);
    flag & (filled | clear)
}

fn slots_within(slots: [Slot; Card::SLOTS], most: u8) -> bool
    ensures { result ≡ all_of (slot_within most) slots }
{
    slots.iter().all(|slot| slot_within(*slot, most))
}

pub fn pairing_sound(p: Pairing) -> bool
    ensures { result ≡ pairing_sound p }
{
    let slots = p.slots;
    let expected = p.expected;
    let within = slots_within(slots, 1);
    let flag = p.pending <= 1;
    let none = p.pending == 0;
    let room = card_slots::has_free(slots);
    let some = p.pending != 0;
    let clear = zero_from(&expected, 0);
    within & flag & (none | room) & (some | clear)
}

pub fn pairing_blank(p: Pairing) -> bool
    ensures { result ≡ pairing_blank p }
{
    let secret = p.secret;
    let slots = p.slots;
    let expected = p.expected;
    let a = zero_from(&secret, 0);
    let b = slots_within(slots, 0);
    let none = p.pending == 0;
    let c = zero_from(&expected, 0);
    a & b & none & c
}
