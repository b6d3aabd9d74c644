// The card (RULES 2.1): everything that it keeps, by value, as nested structs of bytes and byte arrays.
// Every field is a u8 or an array of u8, so the structs have one layout without padding; every length is in bytes.
// Proved: a fresh card and a card at power-up are what their definitions say, field by field.
#![tactic(auto)]

ghost use Rattle.std.specs.Prelude.{◌≡◌};
ghost use Rattle.card.specs.State.{fresh_of, reset_of, closed, closed_of};

// Lengths of the fields that are arrays, in bytes. Every other field is one byte.
pub const UID_BYTES: usize = 16;

pub const PUBLIC_KEY_BYTES: usize = 65;

pub const PIN_BYTES: usize = 6;

pub const PUK_BYTES: usize = 12;

pub const KEY_BYTES: usize = 32;

pub const IV_BYTES: usize = 16;

pub const PATH_MAX_BYTES: usize = 40;

pub const TAP_MAX_BYTES: usize = 223;

// Sizes of the parts, in bytes: of each the sum of its fields' (specs/Sizes.antt).
pub const IDENTITY_BYTES: usize = UID_BYTES + PUBLIC_KEY_BYTES;

pub const PINS_BYTES: usize = PIN_BYTES + PUK_BYTES + 1 + 1 + 1;

pub const SLOT_BYTES: usize = 1 + KEY_BYTES;

pub const SLOTS_BYTES: usize = SLOT_BYTES * Card::SLOTS;

pub const PAIRING_BYTES: usize = KEY_BYTES + SLOTS_BYTES + 1 + KEY_BYTES;

pub const PATH_BYTES: usize = 1 + PATH_MAX_BYTES;

pub const KEYS_BYTES: usize = 1 + KEY_BYTES + PATH_BYTES + PATH_BYTES;

pub const SESSION_BYTES: usize = KEY_BYTES + KEY_BYTES + IV_BYTES;

pub const CHANNEL_BYTES: usize = 1 + SESSION_BYTES;

pub const TAP_BYTES: usize = 1 + TAP_MAX_BYTES;

// The whole card: the flag of INIT and the six parts.
pub const CARD_BYTES: usize = 1
    + IDENTITY_BYTES
    + PINS_BYTES
    + PAIRING_BYTES
    + KEYS_BYTES
    + CHANNEL_BYTES
    + TAP_BYTES;

// The channel's stages: closed, opened, and mutually authenticated.
pub const STAGE_CLOSED: u8 = 0;

pub const STAGE_OPENED: u8 = 1;

pub const STAGE_AUTHENTICATED: u8 = 2;

// The kinds of key: none, a key without a chain code, and one with it.
pub const KEY_NONE: u8 = 0;

pub const KEY_SINGLE: u8 = 1;

pub const KEY_EXTENDED: u8 = 2;

// A byte as a number of the machine's width.
pub fn wide(b: u8) -> usize
    ensures { result ≡ b }
{
    b as usize
}

// Which card it is: the UID and the card's public key.
#[repr(C)]
#[derive(Clone, Copy)]
pub struct Identity {
    pub uid: [u8; UID_BYTES],
    pub public_key: [u8; PUBLIC_KEY_BYTES],
}

// The PIN, the PUK that unblocks it, the tries left for each, and whether the PIN is verified (0 or 1).
#[repr(C)]
#[derive(Clone, Copy)]
pub struct Pins {
    pub pin: [u8; PIN_BYTES],
    pub puk: [u8; PUK_BYTES],
    pub pin_tries: u8,
    pub puk_tries: u8,
    pub verified: u8,
}

// A pairing slot: whether it is filled (0 or 1), and the pairing key.
#[repr(C)]
#[derive(Clone, Copy)]
pub struct Slot {
    pub filled: u8,
    pub key: [u8; KEY_BYTES],
}

// The pairing secret, the slots, and the pending pairing: whether there is one (0 or 1), and the client cryptogram expected.
#[repr(C)]
#[derive(Clone, Copy)]
pub struct Pairing {
    pub secret: [u8; KEY_BYTES],
    pub slots: [Slot; Card::SLOTS],
    pub pending: u8,
    pub expected: [u8; KEY_BYTES],
}

// A key path: how many bytes of it are in use, 4 a component, and the bytes, the high byte of a component first.
#[repr(C)]
#[derive(Clone, Copy)]
pub struct Path {
    pub len: u8,
    pub bytes: [u8; PATH_MAX_BYTES],
}

// The key's kind (0 none, 1 a key, 2 an extended key), its UID, the current path and the PIN-less path.
#[repr(C)]
#[derive(Clone, Copy)]
pub struct Keys {
    pub kind: u8,
    pub uid: [u8; KEY_BYTES],
    pub current: Path,
    pub pinless: Path,
}

// The secure channel: its stage (0 closed, 1 opened, 2 mutually authenticated), and the session: both keys and the IV.
#[repr(C)]
#[derive(Clone, Copy)]
pub struct Channel {
    pub stage: u8,
    pub enc_key: [u8; KEY_BYTES],
    pub mac_key: [u8; KEY_BYTES],
    pub iv: [u8; IV_BYTES],
}

// The tap record, which a phone held to the card reads: how many bytes of it are in use, 0 for none, and the bytes.
#[repr(C)]
#[derive(Clone, Copy)]
pub struct Tap {
    pub len: u8,
    pub bytes: [u8; TAP_MAX_BYTES],
}

// The whole card. Before INIT, initialised is 0 and all but the identity is zero.
#[repr(C)]
#[derive(Clone, Copy)]
pub struct Card {
    pub initialised: u8,
    pub identity: Identity,
    pub pins: Pins,
    pub pairing: Pairing,
    pub keys: Keys,
    pub channel: Channel,
    pub tap: Tap,
}

impl Channel {
    // The channel in stage 0.
    fn closed() -> Channel
        ensures { result ≡ closed_of }
    {
        Channel {
            stage: STAGE_CLOSED,
            enc_key: [0; KEY_BYTES],
            mac_key: [0; KEY_BYTES],
            iv: [0; IV_BYTES],
        }
    }
}

impl Card {
    pub const PIN_TRIES: u8 = 3;

    pub const PUK_TRIES: u8 = 5;

    pub const SLOTS: usize = 8;

    pub const VERSION: [u8; 2] = [2, 0];

    // FRESH (RULES 3.3): a pre-initialised card with this UID and public key.
    pub fn fresh(uid: [u8; UID_BYTES], public_key: [u8; PUBLIC_KEY_BYTES]) -> Card
        ensures { result ≡ fresh_of uid public_key }
    {
        let identity = Identity { uid, public_key };
        let pins = Pins {
            pin: [0; PIN_BYTES],
            puk: [0; PUK_BYTES],
            pin_tries: 0,
            puk_tries: 0,
            verified: 0,
        };
        let free = Slot {
            filled: 0,
            key: [0; KEY_BYTES],
        };
        let pairing = Pairing {
            secret: [0; KEY_BYTES],
            slots: [free; Card::SLOTS],
            pending: 0,
            expected: [0; KEY_BYTES],
        };
        let empty = Path {
            len: 0,
            bytes: [0; PATH_MAX_BYTES],
        };
        let keys = Keys {
            kind: KEY_NONE,
            uid: [0; KEY_BYTES],
            current: empty,
            pinless: empty,
        };
        let channel = Channel::closed();
        let tap = Tap {
            len: 0,
            bytes: [0; TAP_MAX_BYTES],
        };
        Card {
            initialised: 0,
            identity,
            pins,
            pairing,
            keys,
            channel,
            tap,
        }
    }

    // The card with its channel closed and the PIN not verified: the one place that closes a channel, and verification ends with it.
    pub fn close(mut self) -> Card
        ensures { result ≡ closed self }
    {
        self.pins.verified = 0;
        let channel = Channel::closed();
        self.channel = channel;
        self
    }

    // What power-up leaves of a card (RULES 3.4), without the question whether it is sound.
    pub fn powered_up(mut self) -> Card
        ensures { result ≡ reset_of self }
    {
        let mut pairing = self.pairing;
        pairing.pending = 0;
        pairing.expected = [0; KEY_BYTES];
        self.pairing = pairing;
        self.close()
    }
}
