// The template that SELECT answers after INIT, application info, written from plain values into a buffer.
// Every length is in bytes.
// Proved: the writer leaves in the buffer exactly the bytes that the definition of `template_answers` gives, and touches no other.
#![tactic(auto)]

ghost use Rattle.std.specs.Prelude.{◌≡◌, ◌+◌, ◌≤◌, length};
ghost use Rattle.template_rules.specs.Writing.{Wrote};
ghost use Rattle.template_answers.specs.Answers.{application_bytes, application_fields, application_info};

use card::Card;
use template_answers::{TAG_APPLICATION_INFO, TAG_INSTANCE_UID, TAG_KEY_UID};
use template_rules::{TAG_INTEGER, TAG_PUBLIC_KEY};
use template_write::{field_bytes, put_field, put_head};

pub const VERSION_BYTES: usize = 2;

pub const FREE_SLOTS_BYTES: usize = 1;

// A writer writes from byte `at` on and gives the place after its part. What it asks of the buffer leaves room for the longest head
// before the last value.

// How many bytes the fields of SELECT's answer take, from the lengths in bytes of those that vary.
fn application_bytes(uid_bytes: usize, key_bytes: usize, key_uid_bytes: usize) -> usize
    requires { (uid_bytes ≤ 16) × (key_bytes ≤ 65) × (key_uid_bytes ≤ 32) }
    ensures { result ≡ application_bytes uid_bytes key_bytes key_uid_bytes }
{
    let uid_field = field_bytes(uid_bytes);
    let key_field = field_bytes(key_bytes);
    let key_uid_field = field_bytes(key_uid_bytes);
    uid_field
        + key_field
        + field_bytes(VERSION_BYTES)
        + field_bytes(FREE_SLOTS_BYTES)
        + key_uid_field
}

// The fields of SELECT's answer after INIT.
fn put_application_fields(
    buf: &mut [u8],
    at: usize,
    uid: &[u8],
    key: &[u8],
    free_slots: u8,
    key_uid: &[u8],
) -> usize
    requires { (length uid.now ≤ 16) × (length key.now ≤ 65) × (length key_uid.now ≤ 32) × (at + 127 ≤ length buf.old) }
    ensures { Wrote (application_fields uid.now key.now free_slots key_uid.now) at result
        buf.old buf.new }
{
    let version = Card::VERSION;
    let free = [free_slots];
    let after_uid = put_field(buf, at, TAG_INSTANCE_UID, uid);
    let after_key = put_field(buf, after_uid, TAG_PUBLIC_KEY, key);
    let after_version = put_field(buf, after_key, TAG_INTEGER, &version);
    let after_free = put_field(buf, after_version, TAG_INTEGER, &free);
    put_field(buf, after_free, TAG_KEY_UID, key_uid)
}

// SELECT after INIT: instance UID 16 bytes, public key 65, version, free slots, and key UID 32 bytes, or empty where there is no key.
pub fn put_application_info(
    buf: &mut [u8],
    at: usize,
    uid: &[u8],
    key: &[u8],
    free_slots: u8,
    key_uid: &[u8],
) -> usize
    requires { (length uid.now ≤ 16) × (length key.now ≤ 65) × (length key_uid.now ≤ 32) × (at + 129 ≤ length buf.old) }
    ensures { Wrote (application_info uid.now key.now free_slots key_uid.now) at result
        buf.old buf.new }
{
    let inner_bytes = application_bytes(uid.len(), key.len(), key_uid.len());
    let behind = put_head(buf, at, TAG_APPLICATION_INFO, inner_bytes);
    put_application_fields(buf, behind, uid, key, free_slots, key_uid)
}
