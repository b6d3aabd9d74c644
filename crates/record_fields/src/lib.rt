// The fields of the stored record, written one by one: any field, a path, the key UID, the tap record, and the content of the slots.
// Every length, place and count is in bytes.
// Proved: the field is at its place, nothing else changes, and the place after it is given.
#![tactic(auto)]

ghost use Rattle.std.specs.Prelude.{◌≡◌, [], ◌∷◌, ◌+◌, ◌*◌, ◌≤◌, ◌<◌, length, take};
ghost use Rattle.octets.specs.Bytes.{overwrite};
ghost use Rattle.card.specs.State.{key_uid, path_bytes};
ghost use Rattle.card.specs.Sizes.{key_bytes, path_most_bytes, tap_most_bytes, slot_bytes, slot_count};
ghost use Rattle.record_rules.specs.Fields.{record_field, slots_bytes, slots_tag, tap_fields};
ghost use Rattle.record_rules.specs.Lengths.{head_bytes, record_field_bytes};
ghost use Rattle.record_fields.specs.Put.{Put};

use card::{Card, Keys, Path, SLOT_BYTES, SLOTS_BYTES, Slot, Tap};
use record_rules::HEAD_BYTES;

// The tags of the slots, of the key UID and of the tap record.
const TAG_SLOTS: u8 = 0x24;

const TAG_KEY_UID: u8 = 0x31;

const TAG_TAP: u8 = 0x34;

// How many values a byte has: a length in bytes is its high byte times this, and its low byte.
const BYTE_VALUES: usize = 256;

// Writes a field at a place, and gives the place after it.
pub fn put_field(buf: &mut [u8], at: usize, tag: u8, src: &[u8]) -> usize
    requires { (length src.now < 65536) × (at + head_bytes + length src.now ≤ length buf.old) }
    ensures { (Put (record_field tag src.now ∷ []) at buf.old result buf.new) × (result ≡ at + head_bytes + length src.now) }
{
    let high = (src.len() / BYTE_VALUES) as u8;
    let low = (src.len() % BYTE_VALUES) as u8;
    let head = [tag, high, low];
    octets::put(buf, at, &head);
    let content = at + HEAD_BYTES;
    octets::put(buf, content, src);
    content + src.len()
}

// Writes a slot's flag and key at a place.
fn put_slot(buf: &mut [u8], at: usize, slot: Slot)
    requires { at + slot_bytes ≤ length buf.old }
    ensures { (length slot.key ≡ key_bytes) × (buf.new ≡ overwrite buf.old at (slot.filled ∷ slot.key)) }
{
    let flag = [slot.filled];
    let key = slot.key;
    octets::put(buf, at, &flag);
    octets::put(buf, at + 1, &key);
}

// The content of the first `count` slots, each its flag and its key, at the start of an array that has room for all.
fn first_slots(slots: [Slot; Card::SLOTS], count: usize) -> [u8; SLOTS_BYTES]
    requires { count ≤ slot_count }
    ensures { take (slot_bytes * count) result ≡ slots_bytes (take count slots) }
{
    let mut out = [0u8; SLOTS_BYTES];
    for i in 0..count {
        let slot = slots[i];
        put_slot(&mut out, SLOT_BYTES * i, slot);
    }
    out
}

// The content of all the slots.
pub fn slots_bytes(slots: [Slot; Card::SLOTS]) -> [u8; SLOTS_BYTES]
    ensures { result ≡ slots_bytes slots }
{
    first_slots(slots, Card::SLOTS)
}

// Writes the field of the first `count` slots.
pub fn put_slots(buf: &mut [u8], at: usize, slots: [Slot; Card::SLOTS], count: usize) -> usize
    requires { (count ≤ slot_count) × (at + record_field_bytes (slot_bytes * slot_count) ≤ length buf.old) }
    ensures { (Put (record_field slots_tag (slots_bytes (take count slots)) ∷ []) at buf.old result buf.new)
        × (result ≤ at + record_field_bytes (slot_bytes * slot_count)) }
{
    let content = first_slots(slots, count);
    let content_bytes = SLOT_BYTES * count;
    put_field(buf, at, TAG_SLOTS, &content[..content_bytes])
}

// Writes a field whose content are the bytes in use of a room.
fn put_used(buf: &mut [u8], at: usize, tag: u8, room: &[u8], used: u8) -> usize
    requires { (used ≤ length room.now) × (at + record_field_bytes (length room.now) ≤ length buf.old) }
    ensures { (Put (record_field tag (take used room.now) ∷ []) at buf.old result buf.new)
        × (result ≤ at + record_field_bytes (length room.now)) }
{
    let len = card::wide(used);
    put_field(buf, at, tag, &room[..len])
}

pub fn put_path(buf: &mut [u8], at: usize, tag: u8, p: Path) -> usize
    requires { (p.len ≤ path_most_bytes) × (at + record_field_bytes path_most_bytes ≤ length buf.old) }
    ensures { (Put (record_field tag (path_bytes p) ∷ []) at buf.old result buf.new) × (result ≤ at + record_field_bytes path_most_bytes) }
{
    let bytes = p.bytes;
    put_used(buf, at, tag, &bytes, p.len)
}

pub fn put_tap(buf: &mut [u8], at: usize, t: Tap) -> usize
    requires { (t.len ≤ tap_most_bytes) × (at + record_field_bytes tap_most_bytes ≤ length buf.old) }
    ensures { (Put (tap_fields t) at buf.old result buf.new) × (result ≤ at + record_field_bytes tap_most_bytes) }
{
    let bytes = t.bytes;
    put_used(buf, at, TAG_TAP, &bytes, t.len)
}

pub fn put_key_uid(buf: &mut [u8], at: usize, k: Keys) -> usize
    requires { at + record_field_bytes key_bytes ≤ length buf.old }
    ensures { (Put (record_field 0x31 (key_uid k) ∷ []) at buf.old result buf.new) × (result ≤ at + record_field_bytes key_bytes) }
{
    let uid = k.uid;
    if k.kind == 0 {
        return put_field(buf, at, TAG_KEY_UID, &uid[..0]);
    }
    put_field(buf, at, TAG_KEY_UID, &uid)
}
