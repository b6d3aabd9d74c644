// The table of refusals: each number that an operation can give in the place of an answer, and the room that a buffer must have.
// Every room is in bytes. The same table is in specs/Refusals.antt as definitions (RULES 3.2), which every contract cites.
// A refusal hands back the state that it was given and changes no byte of any buffer; the lowest number that applies is given.

#![tactic(auto)]

pub const REFUSAL_NONE: u8 = 0;

// The card is not sound.
pub const REFUSAL_UNSOUND: u8 = 1;

// The buffer has not the room.
pub const REFUSAL_ROOM: u8 = 2;

// ANSWER: a supply is read, and its length or its flag byte is wrong.
pub const REFUSAL_SUPPLY: u8 = 3;

// WALK: malformed.
pub const REFUSAL_MALFORMED: u8 = 4;

// WALK: too deep.
pub const REFUSAL_TOO_DEEP: u8 = 5;

// SEAL: the data are too long.
pub const REFUSAL_DATA_LONG: u8 = 6;

// UNSEAL: not genuine.
pub const REFUSAL_NOT_GENUINE: u8 = 7;

// READ: not a record.
pub const REFUSAL_NOT_RECORD: u8 = 8;

// Word numbers back to entropy: not 12, 15, 18, 21 or 24 numbers of 2 bytes.
pub const REFUSAL_WRONG_COUNT: u8 = 9;

// Word numbers back to entropy: a number has more than 11 bits.
pub const REFUSAL_NUMBER_TOO_LARGE: u8 = 10;

// Word numbers back to entropy: the checksum is not the entropy's.
pub const REFUSAL_WRONG_CHECKSUM: u8 = 11;

// PLAN: no plan is made.
pub const REFUSAL_NO_PLAN: u8 = 12;

// The stock count: one record more, or the sum of two counts, would hold more than 65,535 records fed.
pub const REFUSAL_COUNT_FULL: u8 = 13;

// The room that each operation asks for, in bytes. That of WRITE follows from the stored record's fields: `record_rules::WRITE_ROOM_BYTES`.
pub const ASK_ROOM_BYTES: usize = 255;

pub const ANSWER_ROOM_BYTES: usize = 258;

pub const SEAL_ROOM_BYTES: usize = 261;

pub const UNSEAL_ROOM_BYTES: usize = 223;

pub const ENTROPY_ROOM_BYTES: usize = 32;

// The most data that SEAL takes, in bytes.
pub const SEAL_DATA_MAX_BYTES: usize = 223;
