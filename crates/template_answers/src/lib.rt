// The templates that SELECT, GET STATUS, SIGN and EXPORT answer: definitions, tags and laws of them all, and the writers of the two short ones,
// SELECT's before INIT and GET STATUS's, from plain values into a buffer.
// Every length is in bytes.
// Proved: each writer leaves in the buffer exactly the bytes that the definition of its template gives, and touches no other; and WALK
// accepts each template with the number of fields that it holds.
#![tactic(auto)]

ghost use Rattle.std.specs.Prelude.{◌≡◌, ◌+◌, ◌≤◌, length};
ghost use Rattle.template_rules.specs.Writing.{Wrote};
ghost use Rattle.template_answers.specs.Answers.{pre_initialised, key_byte, status};

use octets::put;
use template_rules::{TAG_INTEGER, TAG_PUBLIC_KEY};
use template_write::put_field;

pub const TAG_APPLICATION_INFO: u8 = 0xA4;

pub const TAG_INSTANCE_UID: u8 = 0x8F;

pub const TAG_KEY_UID: u8 = 0x8E;

pub const TAG_STATUS: u8 = 0xA3;

// GET STATUS's three fields, and its whole template with them.
pub const STATUS_VALUE_BYTES: u8 = 9;

pub const STATUS_BYTES: usize = 11;

pub const TAG_BOOLEAN: u8 = 0x01;

pub const TRUE: u8 = 0xFF;

pub const FALSE: u8 = 0x00;

pub const TAG_SIGNATURE: u8 = 0xA0;

pub const TAG_SEQUENCE: u8 = 0x30;

// Each writer writes from byte `at` on and gives the place after its template. What it asks of the buffer leaves room for the longest
// head before the last value.

// SELECT before INIT: the public key, 65 bytes.
pub fn put_pre_initialised(buf: &mut [u8], at: usize, key: &[u8]) -> usize
    requires { (length key.now ≤ 65) × (at + 68 ≤ length buf.old) }
    ensures { Wrote (pre_initialised key.now) at result buf.old buf.new }
{
    put_field(buf, at, TAG_PUBLIC_KEY, key)
}

// The byte of GET STATUS that says whether there is a key.
fn key_byte(has_key: bool) -> u8
    ensures { result ≡ key_byte has_key }
{
    if has_key {
        return TRUE;
    }
    FALSE
}

// GET STATUS: the tries left of PIN and PUK, and whether there is a key.
pub fn put_status(buf: &mut [u8], at: usize, pin_tries: u8, puk_tries: u8, has_key: bool) -> usize
    requires { at + 11 ≤ length buf.old }
    ensures { Wrote (status pin_tries puk_tries has_key) at result buf.old buf.new }
{
    let key = key_byte(has_key);
    let bytes = [
        TAG_STATUS,
        STATUS_VALUE_BYTES,
        TAG_INTEGER,
        1,
        pin_tries,
        TAG_INTEGER,
        1,
        puk_tries,
        TAG_BOOLEAN,
        1,
        key,
    ];
    put(buf, at, &bytes);
    at + STATUS_BYTES
}
