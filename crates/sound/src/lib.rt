// Whether a card is sound, and RESET, which refuses a card that is not.
// Proved: the answer is the definition of soundness for every card, whatever its bytes; RESET refuses with 1 or powers up.
#![tactic(auto)]

ghost use Rattle.std.specs.Prelude.{◌≡◌};
ghost use Rattle.card.specs.Sound.{is_sound, parts_sound, parts_blank};
ghost use Rattle.sound.specs.Reset.{reset_answer};

use card::{Card, STAGE_AUTHENTICATED, STAGE_CLOSED};
use refusals::{REFUSAL_NONE, REFUSAL_UNSOUND};

// What a call that gives a card answers: the refusal's number, or 0 for none, and the card.
// A number beside the card, and no Result: `reset_answer` promises the card on a refusal too, as it was given, and the library hands both on to C.
#[derive(Clone, Copy)]
pub struct Answer {
    pub refusal: u8,
    pub card: Card,
}

// The parts of an initialised card.
fn parts_sound(card: Card) -> bool
    ensures { result ≡ parts_sound card }
{
    let pins = card.pins;
    let pairing = card.pairing;
    let keys = card.keys;
    let channel = card.channel;
    let tap = card.tap;
    let a = sound_pins::pins_sound(pins);
    let b = sound_pairing::pairing_sound(pairing);
    let c = sound_keys::keys_sound(keys);
    let d = sound_channel::channel_sound(channel);
    let e = sound_tap::tap_sound(tap);
    let none = pairing.pending == 0;
    let closed = channel.stage == STAGE_CLOSED;
    let unverified = pins.verified == 0;
    let authenticated = channel.stage == STAGE_AUTHENTICATED;
    a & b & c & d & e & (none | closed) & (unverified | authenticated)
}

// The parts of a pre-initialised card.
fn parts_blank(card: Card) -> bool
    ensures { result ≡ parts_blank card }
{
    let pins = card.pins;
    let pairing = card.pairing;
    let keys = card.keys;
    let channel = card.channel;
    let tap = card.tap;
    sound_pins::pins_blank(pins)
        & sound_pairing::pairing_blank(pairing)
        & sound_keys::keys_blank(keys)
        & sound_channel::channel_blank(channel)
        & sound_tap::tap_blank(tap)
}

// Whether the card is sound (RULES 2.3).
pub fn sound(card: Card) -> bool
    ensures { result ≡ is_sound card }
{
    if card.initialised == 0 {
        return parts_blank(card);
    }
    let flag = card.initialised == 1;
    flag & parts_sound(card)
}

// RESET (RULES 3.4): power-up, or refusal 1 and the card as given.
pub fn reset(card: Card) -> Answer
    ensures { result ≡ reset_answer card }
{
    if sound(card) {
        let next = card.powered_up();
        Answer {
            refusal: REFUSAL_NONE,
            card: next,
        }
    } else {
        Answer {
            refusal: REFUSAL_UNSOUND,
            card,
        }
    }
}
