// The card that some bytes describe, if they are a stored record: its fields taken in their order, group by group.
// Every length and place is in bytes.
// Proved: it is the card of the definition, for any bytes of any length.
#![tactic(auto)]

ghost use Rattle.std.specs.Prelude.{◌≡◌};
ghost use Rattle.record_rules.specs.Parse.{content, card_of};
ghost use Rattle.record_card.specs.Taken.{At, IdentityTaken, SecretsTaken, KeysTaken};

use card::{Card, Identity, Keys, Pairing, Pins, SLOTS_BYTES};
use record_spans::{slots_from, take_field, take_path, take_tap};

// The first three fields read, and the place after them.
#[derive(Clone, Copy)]
pub struct IdentityRead {
    pub initialised: u8,
    pub identity: Identity,
    pub next: usize,
}

// The five fields after those read, and the place after them.
#[derive(Clone, Copy)]
pub struct SecretsRead {
    pub pins: Pins,
    pub pairing: Pairing,
    pub next: usize,
}

// The four fields after those read, and the place after them.
#[derive(Clone, Copy)]
pub struct KeysRead {
    pub keys: Keys,
    pub next: usize,
}

fn take_identity(s: &[u8]) -> IdentityRead
    ensures { IdentityTaken s.now result }
{
    let mut flag = [0u8; 1];
    let mut uid = [0u8; card::UID_BYTES];
    let mut public_key = [0u8; card::PUBLIC_KEY_BYTES];
    let a = take_field(s, 0, &mut flag);
    let b = take_field(s, a, &mut uid);
    let next = take_field(s, b, &mut public_key);
    let identity = Identity { uid, public_key };
    IdentityRead {
        initialised: flag[0],
        identity,
        next,
    }
}

fn take_secrets(s: &[u8], at: usize) -> SecretsRead
    requires { At s.now 3 at }
    ensures { SecretsTaken s.now result }
{
    let mut pin = [0u8; card::PIN_BYTES];
    let mut puk = [0u8; card::PUK_BYTES];
    let mut secret = [0u8; card::KEY_BYTES];
    let mut tries = [0u8; 2];
    let mut content = [0u8; SLOTS_BYTES];
    let a = take_field(s, at, &mut pin);
    let b = take_field(s, a, &mut puk);
    let c = take_field(s, b, &mut secret);
    let d = take_field(s, c, &mut tries);
    let next = take_field(s, d, &mut content);
    let pins = Pins {
        pin,
        puk,
        pin_tries: tries[0],
        puk_tries: tries[1],
        verified: 0,
    };
    let slots = slots_from(content);
    let pairing = Pairing {
        secret,
        slots,
        pending: 0,
        expected: [0; card::KEY_BYTES],
    };
    SecretsRead {
        pins,
        pairing,
        next,
    }
}

fn take_keys(s: &[u8], at: usize) -> KeysRead
    requires { At s.now 8 at }
    ensures { KeysTaken s.now result }
{
    let mut kind = [0u8; 1];
    let mut uid = [0u8; card::KEY_BYTES];
    let a = take_field(s, at, &mut kind);
    let b = take_field(s, a, &mut uid);
    let first = take_path(s, b);
    let c = first.next;
    let second = take_path(s, c);
    let current = first.path;
    let pinless = second.path;
    let keys = Keys {
        kind: kind[0],
        uid,
        current,
        pinless,
    };
    KeysRead {
        keys,
        next: second.next,
    }
}

// The card that the bytes describe, if they are a record: a fresh card, whose channel is closed, with the fields of the record.
pub fn card_of(s: &[u8]) -> Card
    ensures { result ≡ card_of s.now }
{
    let first = take_identity(s);
    let a = first.next;
    let second = take_secrets(s, a);
    let b = second.next;
    let third = take_keys(s, b);
    let c = third.next;
    let tap = take_tap(s, c);
    let identity = first.identity;
    let uid = identity.uid;
    let public_key = identity.public_key;
    let pins = second.pins;
    let pairing = second.pairing;
    let keys = third.keys;
    let mut card = Card::fresh(uid, public_key);
    card.initialised = first.initialised;
    card.pins = pins;
    card.pairing = pairing;
    card.keys = keys;
    card.tap = tap;
    card
}
