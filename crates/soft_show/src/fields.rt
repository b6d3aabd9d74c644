// The fields of a card's bytes, in the order of docs/LAYOUT.md, by name.
ghost use Rattle.std.specs.Prelude.{◌≡◌, ◌+◌, ◌≤◌, take, drop, IfSome};

use card::{
    IV_BYTES, KEY_BYTES, PATH_MAX_BYTES, PIN_BYTES, PUBLIC_KEY_BYTES, PUK_BYTES, SLOT_BYTES,
    TAP_MAX_BYTES, UID_BYTES,
};
use soft_card_bytes::{
    CARD_BYTES, CHANNEL_AT, CURRENT_AT, ENC_KEY_AT, IDENTITY_AT, IV_AT, KEYS_AT, MAC_KEY_AT,
    PAIRING_AT, PENDING_AT, PIN_TRIES_AT, PINLESS_AT, PINS_AT, PUK_TRIES_AT, SLOTS_AT, TAP_AT,
    VERIFIED_AT,
};

// A field: its name, where it lies from the record's start on, and its length.
#[derive(Clone, Copy, Debug)]
pub struct Field {
    pub name: &'static str,
    pub at: usize,
    pub len: usize,
}

// The fields in their order.
pub static FIELDS: [Field; 39] = [
    Field {
        name: "initialised",
        at: 0,
        len: 1,
    },
    Field {
        name: "uid",
        at: IDENTITY_AT,
        len: UID_BYTES,
    },
    Field {
        name: "public_key",
        at: IDENTITY_AT + UID_BYTES,
        len: PUBLIC_KEY_BYTES,
    },
    Field {
        name: "pin",
        at: PINS_AT,
        len: PIN_BYTES,
    },
    Field {
        name: "puk",
        at: PINS_AT + PIN_BYTES,
        len: PUK_BYTES,
    },
    Field {
        name: "pin_tries",
        at: PIN_TRIES_AT,
        len: 1,
    },
    Field {
        name: "puk_tries",
        at: PUK_TRIES_AT,
        len: 1,
    },
    Field {
        name: "verified",
        at: VERIFIED_AT,
        len: 1,
    },
    Field {
        name: "secret",
        at: PAIRING_AT,
        len: KEY_BYTES,
    },
    Field {
        name: "slot0.filled",
        at: SLOTS_AT,
        len: 1,
    },
    Field {
        name: "slot0.key",
        at: SLOTS_AT + 1,
        len: KEY_BYTES,
    },
    Field {
        name: "slot1.filled",
        at: SLOTS_AT + SLOT_BYTES,
        len: 1,
    },
    Field {
        name: "slot1.key",
        at: SLOTS_AT + SLOT_BYTES + 1,
        len: KEY_BYTES,
    },
    Field {
        name: "slot2.filled",
        at: SLOTS_AT + 2 * SLOT_BYTES,
        len: 1,
    },
    Field {
        name: "slot2.key",
        at: SLOTS_AT + 2 * SLOT_BYTES + 1,
        len: KEY_BYTES,
    },
    Field {
        name: "slot3.filled",
        at: SLOTS_AT + 3 * SLOT_BYTES,
        len: 1,
    },
    Field {
        name: "slot3.key",
        at: SLOTS_AT + 3 * SLOT_BYTES + 1,
        len: KEY_BYTES,
    },
    Field {
        name: "slot4.filled",
        at: SLOTS_AT + 4 * SLOT_BYTES,
        len: 1,
    },
    Field {
        name: "slot4.key",
        at: SLOTS_AT + 4 * SLOT_BYTES + 1,
        len: KEY_BYTES,
    },
    Field {
        name: "slot5.filled",
        at: SLOTS_AT + 5 * SLOT_BYTES,
        len: 1,
    },
    Field {
        name: "slot5.key",
        at: SLOTS_AT + 5 * SLOT_BYTES + 1,
        len: KEY_BYTES,
    },
    Field {
        name: "slot6.filled",
        at: SLOTS_AT + 6 * SLOT_BYTES,
        len: 1,
    },
    Field {
        name: "slot6.key",
        at: SLOTS_AT + 6 * SLOT_BYTES + 1,
        len: KEY_BYTES,
    },
    Field {
        name: "slot7.filled",
        at: SLOTS_AT + 7 * SLOT_BYTES,
        len: 1,
    },
    Field {
        name: "slot7.key",
        at: SLOTS_AT + 7 * SLOT_BYTES + 1,
        len: KEY_BYTES,
    },
    Field {
        name: "pending",
        at: PENDING_AT,
        len: 1,
    },
    Field {
        name: "expected",
        at: PENDING_AT + 1,
        len: KEY_BYTES,
    },
    Field {
        name: "key_kind",
        at: KEYS_AT,
        len: 1,
    },
    Field {
        name: "key_uid",
        at: KEYS_AT + 1,
        len: KEY_BYTES,
    },
    Field {
        name: "current.len",
        at: CURRENT_AT,
        len: 1,
    },
    Field {
        name: "current.bytes",
        at: CURRENT_AT + 1,
        len: PATH_MAX_BYTES,
    },
    Field {
        name: "pinless.len",
        at: PINLESS_AT,
        len: 1,
    },
    Field {
        name: "pinless.bytes",
        at: PINLESS_AT + 1,
        len: PATH_MAX_BYTES,
    },
    Field {
        name: "stage",
        at: CHANNEL_AT,
        len: 1,
    },
    Field {
        name: "enc_key",
        at: ENC_KEY_AT,
        len: KEY_BYTES,
    },
    Field {
        name: "mac_key",
        at: MAC_KEY_AT,
        len: KEY_BYTES,
    },
    Field {
        name: "iv",
        at: IV_AT,
        len: IV_BYTES,
    },
    Field {
        name: "tap.len",
        at: TAP_AT,
        len: 1,
    },
    Field {
        name: "tap.bytes",
        at: TAP_AT + 1,
        len: TAP_MAX_BYTES,
    },
];

impl Field {
    // The field of that name.
    pub fn named(name: &[u8]) -> Option<&'static Field>
        ensures { IfSome result (λ f. f.now.name.now ≡ name.now) }
    {
        FIELDS.iter().find(|field| field.name.as_bytes() == name)
    }

    // Its bytes in a card's.
    pub fn of<'a>(&self, card: &'a [u8; CARD_BYTES]) -> &'a [u8]
        ensures { self.now.at + self.now.len ≤ CARD_BYTES → result.now ≡ take self.now.len (drop self.now.at card.now) }
    {
        card.get(self.at..self.at.wrapping_add(self.len))
            .unwrap_or(&[])
    }
}
