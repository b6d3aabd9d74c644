// The search for a free pairing slot, and whether the slots from an index on are all free.
// An index counts slots from 0; the facts hold for any number of slots.
// Proved: the slot found is the free one with the least index, and none is found exactly where all are filled.
#![tactic(auto)]

ghost use Rattle.std.specs.Prelude.{◌≡◌, drop};
ghost use Rattle.card.specs.Slots.{all_of, some_of, is_free};
ghost use Rattle.card_slots.specs.Free.{first_free, Says};

use card::{Card, Slot};

// The index of the first free slot, or none where all slots are filled (RULES 6.8). `Says` of specs/Free.antt states each case.
#[tactic(auto, using(crate::proofs::FreeFacts::found_here, crate::proofs::FreeFacts::none_found))]
pub fn first_free(slots: [Slot; Card::SLOTS]) -> Option<usize>
    ensures { (result ≡ first_free slots) × Says slots result }
{
    let mut found = None;
    for (i, slot) in slots.iter().enumerate() {
        if slot.filled == 0 {
            found = Some(i);
            break;
        }
    }
    found
}

// Whether there is a free slot.
#[tactic(auto, using(crate::proofs::FreeFacts::finding))]
pub fn has_free(slots: [Slot; Card::SLOTS]) -> bool
    ensures { result ≡ some_of is_free slots }
{
    first_free(slots).is_some()
}

// Whether the slots from an index on are all free.
pub fn free_from(slots: [Slot; Card::SLOTS], first: usize) -> bool
    ensures { result ≡ all_of is_free (drop first slots) }
{
    slots.iter().skip(first).all(|slot| slot.filled == 0)
}
