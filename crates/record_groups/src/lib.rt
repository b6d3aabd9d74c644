// The three groups of fields of the stored record: identity, secrets and keys.
// Every length, place and count is in bytes.
// Proved: the fields of the group are written one after the other, nothing else changes, and the place after them is given.
#![tactic(auto)]

ghost use Rattle.std.specs.Prelude.{◌≡◌, ◌+◌, ◌≤◌, length};
ghost use Rattle.card.specs.Sizes.{path_most_bytes, slot_count};
ghost use Rattle.record_rules.specs.Fields.{identity_fields, secret_fields, key_fields};
ghost use Rattle.record_rules.specs.Lengths.{identity_fields_bytes, secret_fields_bytes, key_fields_most};
ghost use Rattle.record_fields.specs.Put.{Put};

use card::{Identity, Keys, Pairing, Pins};
use record_fields::{put_field, put_key_uid, put_path, put_slots};

// The fields' tags.
const TAG_INITIALISED: u8 = 0x10;

const TAG_UID: u8 = 0x11;

const TAG_PUBLIC_KEY: u8 = 0x12;

const TAG_PIN: u8 = 0x20;

const TAG_PUK: u8 = 0x21;

const TAG_SECRET: u8 = 0x22;

const TAG_TRIES: u8 = 0x23;

const TAG_KIND: u8 = 0x30;

const TAG_CURRENT: u8 = 0x32;

const TAG_PINLESS: u8 = 0x33;

pub fn put_identity(buf: &mut [u8], initialised: u8, identity: Identity) -> usize
    requires { identity_fields_bytes ≤ length buf.old }
    ensures { (Put (identity_fields initialised identity) 0 buf.old result buf.new) × (result ≡ identity_fields_bytes) }
{
    let flag = [initialised];
    let uid = identity.uid;
    let public_key = identity.public_key;
    let a = put_field(buf, 0, TAG_INITIALISED, &flag);
    let b = put_field(buf, a, TAG_UID, &uid);
    put_field(buf, b, TAG_PUBLIC_KEY, &public_key)
}

// The secrets with the first `slots` slots.
pub fn put_secrets(buf: &mut [u8], at: usize, pins: Pins, pairing: Pairing, slots: usize) -> usize
    requires { (slots ≤ slot_count) × (at + secret_fields_bytes ≤ length buf.old) }
    ensures { (Put (secret_fields slots pins pairing) at buf.old result buf.new) × (result ≤ at + secret_fields_bytes) }
{
    let pin = pins.pin;
    let puk = pins.puk;
    let secret = pairing.secret;
    let tries = [pins.pin_tries, pins.puk_tries];
    let all = pairing.slots;
    let a = put_field(buf, at, TAG_PIN, &pin);
    let b = put_field(buf, a, TAG_PUK, &puk);
    let c = put_field(buf, b, TAG_SECRET, &secret);
    let d = put_field(buf, c, TAG_TRIES, &tries);
    put_slots(buf, d, all, slots)
}

pub fn put_keys(buf: &mut [u8], at: usize, keys: Keys) -> usize
    requires { (keys.current.len ≤ path_most_bytes) × ((keys.pinless.len ≤ path_most_bytes) × (at + key_fields_most ≤ length buf.old)) }
    ensures { (Put (key_fields keys) at buf.old result buf.new) × (result ≤ at + key_fields_most) }
{
    let kind = [keys.kind];
    let current = keys.current;
    let pinless = keys.pinless;
    let a = put_field(buf, at, TAG_KIND, &kind);
    let b = put_key_uid(buf, a, keys);
    let c = put_path(buf, b, TAG_CURRENT, current);
    put_path(buf, c, TAG_PINLESS, pinless)
}
