// The card of a record's bytes (docs/LAYOUT.md), and the session of a session's bytes, for the soft card.
// Every length and place is in bytes.
// Proved: the card of such bytes has each field from its place in the layout (`card_at`), and its fields in the layout's order
// (`card_flat`) are the bytes given. A session likewise.
#![tactic(auto)]

mod parts;

ghost use Rattle.std.specs.Prelude.{◌≡◌, ◌+◌, ◌≤◌};
ghost use Rattle.card.specs.Sizes.{whole_path_bytes, card_bytes};
ghost use Rattle.soft_card_bytes.specs.Flat.{card_flat, session_flat};
ghost use Rattle.soft_card_bytes.specs.Places.{identity_at, pins_at, pairing_at, path_at, keys_at, channel_at, tap_at, card_at, session_at};

pub use card::{CARD_BYTES, SESSION_BYTES};
use card::{Card, Channel, Identity, Keys, Pairing, Path, Pins, Tap};
use channel_rules::Session;
pub use parts::fill;
use parts::part;

// Where the parts of the record begin, each after the part before it, and the fields after the first of their part.
pub const IDENTITY_AT: usize = 1;

pub const PINS_AT: usize = IDENTITY_AT + card::IDENTITY_BYTES;

pub const PAIRING_AT: usize = PINS_AT + card::PINS_BYTES;

pub const KEYS_AT: usize = PAIRING_AT + card::PAIRING_BYTES;

pub const CHANNEL_AT: usize = KEYS_AT + card::KEYS_BYTES;

pub const TAP_AT: usize = CHANNEL_AT + card::CHANNEL_BYTES;

pub const PIN_TRIES_AT: usize = PINS_AT + card::PIN_BYTES + card::PUK_BYTES;

pub const PUK_TRIES_AT: usize = PIN_TRIES_AT + 1;

pub const VERIFIED_AT: usize = PUK_TRIES_AT + 1;

pub const SLOTS_AT: usize = PAIRING_AT + card::KEY_BYTES;

pub const PENDING_AT: usize = SLOTS_AT + card::SLOTS_BYTES;

pub const CURRENT_AT: usize = KEYS_AT + 1 + card::KEY_BYTES;

pub const PINLESS_AT: usize = CURRENT_AT + card::PATH_BYTES;

// The session of the channel, from its encryption key to its IV.
pub const SESSION_AT: usize = CHANNEL_AT + 1;

pub const ENC_KEY_AT: usize = SESSION_AT;

pub const MAC_KEY_AT: usize = ENC_KEY_AT + card::KEY_BYTES;

pub const IV_AT: usize = MAC_KEY_AT + card::KEY_BYTES;

// Where the later fields of a session begin.
pub const SESSION_MAC_KEY_AT: usize = card::KEY_BYTES;

pub const SESSION_IV_AT: usize = SESSION_MAC_KEY_AT + card::KEY_BYTES;

// ---- from bytes: each function reads one part of the card, at its place
fn identity_of(s: [u8; CARD_BYTES]) -> Identity
    ensures { result ≡ identity_at s }
{
    Identity {
        uid: part(&s, IDENTITY_AT),
        public_key: part(&s, IDENTITY_AT + card::UID_BYTES),
    }
}

fn pins_of(s: [u8; CARD_BYTES]) -> Pins
    ensures { result ≡ pins_at s }
{
    Pins {
        pin: part(&s, PINS_AT),
        puk: part(&s, PINS_AT + card::PIN_BYTES),
        pin_tries: s[PIN_TRIES_AT],
        puk_tries: s[PUK_TRIES_AT],
        verified: s[VERIFIED_AT],
    }
}

fn pairing_of(s: [u8; CARD_BYTES]) -> Pairing
    ensures { result ≡ pairing_at s }
{
    Pairing {
        secret: part(&s, PAIRING_AT),
        slots: record_spans::slots_from(part(&s, SLOTS_AT)),
        pending: s[PENDING_AT],
        expected: part(&s, PENDING_AT + 1),
    }
}

fn path_of(s: [u8; CARD_BYTES], at: usize) -> Path
    requires { at + whole_path_bytes ≤ card_bytes }
    ensures { result ≡ path_at at s }
{
    Path {
        len: s[at],
        bytes: part(&s, at + 1),
    }
}

fn keys_of(s: [u8; CARD_BYTES]) -> Keys
    ensures { result ≡ keys_at s }
{
    Keys {
        kind: s[KEYS_AT],
        uid: part(&s, KEYS_AT + 1),
        current: path_of(s, CURRENT_AT),
        pinless: path_of(s, PINLESS_AT),
    }
}

fn channel_of(s: [u8; CARD_BYTES]) -> Channel
    ensures { result ≡ channel_at s }
{
    Channel {
        stage: s[CHANNEL_AT],
        enc_key: part(&s, ENC_KEY_AT),
        mac_key: part(&s, MAC_KEY_AT),
        iv: part(&s, IV_AT),
    }
}

fn tap_of(s: [u8; CARD_BYTES]) -> Tap
    ensures { result ≡ tap_at s }
{
    Tap {
        len: s[TAP_AT],
        bytes: part(&s, TAP_AT + 1),
    }
}

// The card of these bytes, sound or not.
pub fn card_of(bytes: [u8; CARD_BYTES]) -> Card
    ensures { (card_flat result ≡ bytes) × (result ≡ card_at bytes) }
{
    Card {
        initialised: bytes[0],
        identity: identity_of(bytes),
        pins: pins_of(bytes),
        pairing: pairing_of(bytes),
        keys: keys_of(bytes),
        channel: channel_of(bytes),
        tap: tap_of(bytes),
    }
}

// The session of these bytes.
pub fn session_of(bytes: [u8; SESSION_BYTES]) -> Session
    ensures { (session_flat result ≡ bytes) × (result ≡ session_at bytes) }
{
    Session {
        enc_key: part(&bytes, 0),
        mac_key: part(&bytes, SESSION_MAC_KEY_AT),
        iv: part(&bytes, SESSION_IV_AT),
    }
}
