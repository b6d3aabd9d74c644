// The bytes of a card's record (docs/LAYOUT.md), and of a session, for the soft card: each part is put after what lies before it.
// Every length and place is in bytes.
// Proved: the bytes of a card are its fields in the layout's order (`card_flat`), those of a session likewise, and the card or
// session of such bytes is the one that they were made of.
#![tactic(auto)]

mod parts;

ghost use Rattle.std.specs.Prelude.{◌≡◌, ◌++◌, ◌+◌, ◌≤◌, take};
ghost use Rattle.card.specs.Sizes.{whole_path_bytes, card_bytes};
ghost use Rattle.soft_card_bytes.specs.Flat.{identity_flat, pins_flat, pairing_flat, path_flat, keys_flat, channel_flat, tap_flat};
ghost use Rattle.soft_card_bytes.specs.Flat.{card_flat, session_flat};
ghost use Rattle.soft_card_bytes.specs.Offsets.{identity_offset, pins_offset, pairing_offset, keys_offset, channel_offset, tap_offset};

use card::{Card, Channel, Identity, Keys, Pairing, Path, Pins, Tap};
use channel_rules::Session;
use octets::put;
pub use parts::place;
use soft_card_bytes::{
    CARD_BYTES, CHANNEL_AT, CURRENT_AT, ENC_KEY_AT, IDENTITY_AT, IV_AT, KEYS_AT, MAC_KEY_AT,
    PAIRING_AT, PENDING_AT, PIN_TRIES_AT, PINLESS_AT, PINS_AT, SESSION_BYTES, SESSION_IV_AT,
    SESSION_MAC_KEY_AT, SLOTS_AT, TAP_AT,
};

// Each function writes one part of the card, after what lies before it in the record.
fn with_identity(s: [u8; CARD_BYTES], x: Identity) -> [u8; CARD_BYTES]
    ensures { take identity_offset s ++ identity_flat x ≡ take pins_offset result }
{
    let mut r = s;
    put(&mut r, IDENTITY_AT, &x.uid);
    put(&mut r, IDENTITY_AT + card::UID_BYTES, &x.public_key);
    r
}

fn with_pins(s: [u8; CARD_BYTES], x: Pins) -> [u8; CARD_BYTES]
    ensures { take pins_offset s ++ pins_flat x ≡ take pairing_offset result }
{
    let mut r = s;
    let numbers = [x.pin_tries, x.puk_tries, x.verified];
    put(&mut r, PINS_AT, &x.pin);
    put(&mut r, PINS_AT + card::PIN_BYTES, &x.puk);
    put(&mut r, PIN_TRIES_AT, &numbers);
    r
}

fn with_pairing(s: [u8; CARD_BYTES], x: Pairing) -> [u8; CARD_BYTES]
    ensures { take pairing_offset s ++ pairing_flat x ≡ take keys_offset result }
{
    let mut r = s;
    let content = record_fields::slots_bytes(x.slots);
    put(&mut r, PAIRING_AT, &x.secret);
    put(&mut r, SLOTS_AT, &content);
    r[PENDING_AT] = x.pending;
    put(&mut r, PENDING_AT + 1, &x.expected);
    r
}

fn with_path(s: [u8; CARD_BYTES], at: usize, x: Path) -> [u8; CARD_BYTES]
    requires { at + whole_path_bytes ≤ card_bytes }
    ensures { take at s ++ path_flat x ≡ take (at + whole_path_bytes) result }
{
    let mut r = s;
    r[at] = x.len;
    put(&mut r, at + 1, &x.bytes);
    r
}

fn with_keys(s: [u8; CARD_BYTES], x: Keys) -> [u8; CARD_BYTES]
    ensures { take keys_offset s ++ keys_flat x ≡ take channel_offset result }
{
    let mut r = s;
    r[KEYS_AT] = x.kind;
    put(&mut r, KEYS_AT + 1, &x.uid);
    let a = with_path(r, CURRENT_AT, x.current);
    with_path(a, PINLESS_AT, x.pinless)
}

fn with_channel(s: [u8; CARD_BYTES], x: Channel) -> [u8; CARD_BYTES]
    ensures { take channel_offset s ++ channel_flat x ≡ take tap_offset result }
{
    let mut r = s;
    r[CHANNEL_AT] = x.stage;
    put(&mut r, ENC_KEY_AT, &x.enc_key);
    put(&mut r, MAC_KEY_AT, &x.mac_key);
    put(&mut r, IV_AT, &x.iv);
    r
}

fn with_tap(s: [u8; CARD_BYTES], x: Tap) -> [u8; CARD_BYTES]
    ensures { take tap_offset s ++ tap_flat x ≡ result }
{
    let mut r = s;
    r[TAP_AT] = x.len;
    put(&mut r, TAP_AT + 1, &x.bytes);
    r
}

// The bytes of a card.
pub fn record_of(card: Card) -> [u8; CARD_BYTES]
    ensures { result ≡ card_flat card }
{
    let a = [card.initialised; CARD_BYTES];
    let b = with_identity(a, card.identity);
    let c = with_pins(b, card.pins);
    let d = with_pairing(c, card.pairing);
    let e = with_keys(d, card.keys);
    let f = with_channel(e, card.channel);
    with_tap(f, card.tap)
}

// The bytes of a session.
pub fn session_bytes(x: Session) -> [u8; SESSION_BYTES]
    ensures { result ≡ session_flat x }
{
    let mut r = [0u8; SESSION_BYTES];
    put(&mut r, 0, &x.enc_key);
    put(&mut r, SESSION_MAC_KEY_AT, &x.mac_key);
    put(&mut r, SESSION_IV_AT, &x.iv);
    r
}
