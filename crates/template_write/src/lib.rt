// Fields of templates, written into a buffer: how many bytes a field takes, its head, and the whole field.
// Every length is in bytes.
// Proved: what is written is the field that the definitions of `template` give, for every value length that has a form, and no other byte
// of the buffer is touched.
#![tactic(auto)]

ghost use Rattle.std.specs.Prelude.{◌≡◌, ◌+◌, ◌≤◌, ◌<◌, length};
ghost use Rattle.template_rules.specs.Template.{field_head, field_bytes, field};
ghost use Rattle.template_rules.specs.Writing.{Wrote};

use octets::put;
use template_rules::{LONG_FORM, LONG_FORM_MIN_BYTES};

// How many bytes a field with this many bytes of value takes.
pub fn field_bytes(value_bytes: usize) -> usize
    requires { value_bytes < 256 }
    ensures { result ≡ field_bytes value_bytes }
{
    if value_bytes < LONG_FORM_MIN_BYTES as usize {
        2 + value_bytes
    } else {
        3 + value_bytes
    }
}

// Writes the head of a field from byte `at` on, and gives the place after it. There is room for the longest head.
pub fn put_head(buf: &mut [u8], at: usize, tag: u8, value_bytes: usize) -> usize
    requires { (value_bytes < 256) × (at + 3 ≤ length buf.old) }
    ensures { Wrote (field_head tag value_bytes) at result buf.old buf.new }
{
    if value_bytes < LONG_FORM_MIN_BYTES as usize {
        let head = [tag, value_bytes as u8];
        put(buf, at, &head);
        return at + 2;
    }
    let head = [tag, LONG_FORM, value_bytes as u8];
    put(buf, at, &head);
    at + 3
}

// Writes a field from byte `at` on, and gives the place after it. There is room for the longest head and the value.
pub fn put_field(buf: &mut [u8], at: usize, tag: u8, value: &[u8]) -> usize
    requires { (length value.now < 256) × (at + 3 + length value.now ≤ length buf.old) }
    ensures { Wrote (field tag value.now) at result buf.old buf.new }
{
    let behind = put_head(buf, at, tag, value.len());
    put(buf, behind, value);
    behind + value.len()
}
