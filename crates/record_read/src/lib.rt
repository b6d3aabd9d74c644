// READ: the card whose stored record a slice is.
// Every length and place is in bytes.
// Proved: a card is given exactly where the bytes are the record of a sound card in one of the forms, and then it is that card
// reset; any other bytes, of any length, are refused with 8 and FRESH of zeros.
#![tactic(auto)]

ghost use Rattle.std.specs.Prelude.{◌≡◌, true, ◌≤◌};
ghost use Rattle.record_rules.specs.Forms.{holds, is_in_form};
ghost use Rattle.record_rules.specs.Answers.{is_record_of, read_answer};
ghost use Rattle.record_rules.specs.Fields.{encode_all, fields_in};
ghost use Rattle.octets.specs.Bytes.{same_bytes};
ghost use Rattle.card.specs.Sizes.{path_most_bytes, tap_most_bytes, slot_count};
ghost use Rattle.card.specs.Sound.{is_sound};

use card::Card;
use card_slots::free_from;
use record_card::card_of;
use record_rules::{Form, SLOTS_BEFORE, WRITE_ROOM_BYTES};
use refusals::{REFUSAL_NONE, REFUSAL_NOT_RECORD};
use sound::Answer;

// Whether a form holds a card: it is the one that WRITE writes, or the card is initialised and the form leaves nothing of it out.
fn is_held(card: Card, form: Form) -> bool
    ensures { result ≡ holds form card }
{
    let all = form.slots == Card::SLOTS;
    if all & form.tapped {
        return true;
    }
    let pairing = card.pairing;
    let tap = card.tap;
    let slots = pairing.slots;
    let free = free_from(slots, form.slots);
    let after = card.initialised != 0;
    let none = tap.len == 0;
    after & (free & (form.tapped | none))
}

// Whether the bytes are the record of this card in this form.
fn is_written(s: &[u8], card: Card, form: Form) -> bool
    requires { (card.keys.current.len ≤ path_most_bytes) × ((card.keys.pinless.len ≤ path_most_bytes)
        × ((card.tap.len ≤ tap_most_bytes) × (form.slots ≤ slot_count))) }
    ensures { result ≡ same_bytes (encode_all (fields_in form card)) s.now }
{
    let mut again = [0u8; WRITE_ROOM_BYTES];
    let count = record_write::put_record(&mut again, card, form);
    let back = &again[..count];
    octets::same(back, s)
}

// Whether the form holds the card, which is sound, and the bytes are its record in it.
fn is_in_form(s: &[u8], card: Card, slots: usize, tapped: bool) -> bool
    requires { (is_sound card ≡ true) × (slots ≤ slot_count) }
    ensures { result ≡ is_in_form s.now card (record { slots = slots; tapped = tapped }) }
{
    let form = Form { slots, tapped };
    if is_held(card, form) {
        is_written(s, card, form)
    } else {
        false
    }
}

// Whether the card is sound, and the bytes are its record in one of the forms.
fn is_record_of(s: &[u8], card: Card) -> bool
    ensures { result ≡ is_record_of s.now card }
{
    if !sound::sound(card) {
        return false;
    }
    if is_in_form(s, card, Card::SLOTS, true) {
        return true;
    }
    if is_in_form(s, card, Card::SLOTS, false) {
        return true;
    }
    if is_in_form(s, card, SLOTS_BEFORE, true) {
        return true;
    }
    is_in_form(s, card, SLOTS_BEFORE, false)
}

// READ (RULES 10.4).
pub fn read(s: &[u8]) -> Answer
    ensures { result ≡ read_answer s.now }
{
    let card = card_of(s);
    if is_record_of(s, card) {
        Answer {
            refusal: REFUSAL_NONE,
            card,
        }
    } else {
        let none = Card::fresh([0; card::UID_BYTES], [0; card::PUBLIC_KEY_BYTES]);
        Answer {
            refusal: REFUSAL_NOT_RECORD,
            card: none,
        }
    }
}
