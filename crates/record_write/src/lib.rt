// WRITE: the stored record of a card, written from the buffer's start.
// Every length, place and count is in bytes.
// Proved: the bytes written are the record of the card, the count is their number, and no other byte changes; a card that is
// not sound is refused with 1, a buffer with less room than any record needs with 2, and then nothing is written.
#![tactic(auto)]

ghost use Rattle.std.specs.Prelude.{◌≤◌, length};
ghost use Rattle.card.specs.Sizes.{path_most_bytes, tap_most_bytes, slot_count};
ghost use Rattle.record_rules.specs.Fields.{fields_in};
ghost use Rattle.record_rules.specs.Lengths.{write_room};
ghost use Rattle.record_fields.specs.Put.{Put};
ghost use Rattle.record_write.specs.Wrote.{WroteRecord};

use card::Card;
use record_fields::put_tap;
use record_groups::{put_identity, put_keys, put_secrets};
use record_rules::{Form, WRITE_ROOM_BYTES};
use refusals::{REFUSAL_NONE, REFUSAL_ROOM, REFUSAL_UNSOUND};

// What WRITE answers: the refusal's number, or 0 for none, and how many bytes it wrote.
// A number beside the count, and no Result: `WroteRecord` promises the count, 0, on a refusal too, and the library hands both on to C.
#[derive(Clone, Copy)]
pub struct Written {
    pub refusal: u8,
    pub count: usize,
}

// Writes the record, in a form, of a card whose paths and tap record are no longer than their room, and gives its length.
pub fn put_record(buf: &mut [u8], card: Card, form: Form) -> usize
    requires { (card.keys.current.len ≤ path_most_bytes) × ((card.keys.pinless.len ≤ path_most_bytes)
        × ((card.tap.len ≤ tap_most_bytes) × ((form.slots ≤ slot_count) × (write_room ≤ length buf.old)))) }
    ensures { (Put (fields_in form card) 0 buf.old result buf.new) × (result ≤ write_room) }
{
    let identity = card.identity;
    let pins = card.pins;
    let pairing = card.pairing;
    let keys = card.keys;
    let tap = card.tap;
    let a = put_identity(buf, card.initialised, identity);
    if card.initialised == 0 {
        return a;
    }
    let b = put_secrets(buf, a, pins, pairing, form.slots);
    let c = put_keys(buf, b, keys);
    if form.tapped {
        return put_tap(buf, c, tap);
    }
    c
}

// WRITE (RULES 10.3).
pub fn write(card: Card, buf: &mut [u8]) -> Written
    ensures { WroteRecord card result buf.old buf.new }
{
    if !sound::sound(card) {
        return Written {
            refusal: REFUSAL_UNSOUND,
            count: 0,
        };
    }
    if buf.len() < WRITE_ROOM_BYTES {
        return Written {
            refusal: REFUSAL_ROOM,
            count: 0,
        };
    }
    let form = Form {
        slots: Card::SLOTS,
        tapped: true,
    };
    let count = put_record(buf, card, form);
    Written {
        refusal: REFUSAL_NONE,
        count,
    }
}
