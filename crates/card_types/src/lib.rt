// The shape of a card, which the theorems about all cards take as a hypothesis.
// Every length is in bytes.
// Proved: every card that code holds has it, by its type alone.
#![tactic(auto)]

ghost use Rattle.std.specs.Prelude.{◌≡◌, length};
ghost use Rattle.card.specs.Sizes.{uid_bytes, public_key_bytes, pin_bytes, puk_bytes, key_bytes, path_most_bytes, tap_most_bytes, slot_count};
ghost use Rattle.card.specs.Shape.{KeysLong, Shaped};

use card::{Card, Identity, Keys, Pairing, Path, Pins, Slot, Tap};

// Each function gives its argument back. Its contract is what the type says of it.
fn slot_shaped(s: Slot) -> Slot
    ensures { length s.key ≡ key_bytes }
{
    s
}

fn slots_shaped(slots: [Slot; Card::SLOTS]) -> [Slot; Card::SLOTS]
    ensures { (length slots ≡ slot_count) × KeysLong slots }
{
    for slot in slots.iter() {
        slot_shaped(*slot);
    }
    slots
}

fn path_shaped(p: Path) -> Path
    ensures { length p.bytes ≡ path_most_bytes }
{
    p
}

fn identity_shaped(i: Identity) -> Identity
    ensures { (length i.uid ≡ uid_bytes) × (length i.public_key ≡ public_key_bytes) }
{
    i
}

fn pins_shaped(p: Pins) -> Pins
    ensures { (length p.pin ≡ pin_bytes) × (length p.puk ≡ puk_bytes) }
{
    p
}

fn pairing_shaped(p: Pairing) -> Pairing
    ensures { (length p.secret ≡ key_bytes) × (length p.expected ≡ key_bytes) }
{
    p
}

fn keys_shaped(k: Keys) -> Keys
    ensures { length k.uid ≡ key_bytes }
{
    k
}

fn tap_shaped(t: Tap) -> Tap
    ensures { length t.bytes ≡ tap_most_bytes }
{
    t
}

// The card as it is.
pub fn shaped(card: Card) -> Card
    ensures { Shaped card }
{
    let identity = card.identity;
    let pins = card.pins;
    let pairing = card.pairing;
    let slots = pairing.slots;
    let keys = card.keys;
    let current = keys.current;
    let pinless = keys.pinless;
    let tap = card.tap;
    identity_shaped(identity);
    pins_shaped(pins);
    pairing_shaped(pairing);
    keys_shaped(keys);
    slots_shaped(slots);
    path_shaped(current);
    path_shaped(pinless);
    tap_shaped(tap);
    card
}
