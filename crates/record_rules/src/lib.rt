// The stored record: the layout that WRITE and READ share, and the lengths that follow from it, all in bytes.
// The definitions are in specs/: the table of fields, the record of a card, its length, and the card of a record.
// Proved: READ of WRITE of a sound card is RESET of it, and WRITE of what READ took is the record: byte for byte in the form that
// WRITE writes, and in an older one as that is renewed.
#![tactic(auto)]

use card::{
    KEY_BYTES, PATH_MAX_BYTES, PIN_BYTES, PUBLIC_KEY_BYTES, PUK_BYTES, SLOTS_BYTES, TAP_MAX_BYTES,
    UID_BYTES,
};

// A form of the record (RULES 10.4): how many slots field 24 holds, and whether field 34 is there.
#[derive(Clone, Copy)]
pub struct Form {
    pub slots: usize,
    pub tapped: bool,
}

// How many slots field 24 holds in records of versions up to 0.5.0, which READ still takes.
pub const SLOTS_BEFORE: usize = 5;

// A field's head: a tag of one byte and a length of two.
pub const HEAD_BYTES: usize = 1 + 2;

// The groups of fields, each the sum of its fields' heads and contents; of the keys' without a key and with empty paths, and at most.
const IDENTITY_FIELDS_BYTES: usize = 3 * HEAD_BYTES + 1 + UID_BYTES + PUBLIC_KEY_BYTES;

const SECRET_FIELDS_BYTES: usize = 5 * HEAD_BYTES
    + PIN_BYTES
    + PUK_BYTES
    + KEY_BYTES
    + 1
    + 1
    + SLOTS_BYTES;

const KEY_FIELDS_MIN_BYTES: usize = 4 * HEAD_BYTES + 1;

const KEY_FIELDS_MAX_BYTES: usize = KEY_FIELDS_MIN_BYTES
    + KEY_BYTES
    + PATH_MAX_BYTES
    + PATH_MAX_BYTES;

// The record that WRITE writes: before INIT, and the least and the greatest after it, without a tap record and with the longest.
pub const RECORD_FRESH_BYTES: usize = IDENTITY_FIELDS_BYTES;

pub const RECORD_MIN_BYTES: usize = IDENTITY_FIELDS_BYTES
    + SECRET_FIELDS_BYTES
    + KEY_FIELDS_MIN_BYTES
    + HEAD_BYTES;

pub const RECORD_MAX_BYTES: usize = IDENTITY_FIELDS_BYTES
    + SECRET_FIELDS_BYTES
    + KEY_FIELDS_MAX_BYTES
    + HEAD_BYTES
    + TAP_MAX_BYTES;

// The room that WRITE asks of a buffer: enough for any record.
pub const WRITE_ROOM_BYTES: usize = RECORD_MAX_BYTES;
