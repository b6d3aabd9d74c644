// The template that SIGN answers, a public key and a signature, written from plain values into a buffer.
// Every length is in bytes.
// Proved: the writer leaves in the buffer exactly the bytes that the definition of `template_answers` gives, and touches no other.
#![tactic(auto)]

ghost use Rattle.std.specs.Prelude.{◌≡◌, ◌+◌, ◌≤◌, length};
ghost use Rattle.template_rules.specs.Template.{field};
ghost use Rattle.template_rules.specs.Writing.{Wrote};
ghost use Rattle.template_answers.specs.Answers.{pair, signature};

use template_answers::{TAG_SEQUENCE, TAG_SIGNATURE};
use template_der::put_integer;
use template_der_digits::der_bytes;
use template_rules::TAG_PUBLIC_KEY;
use template_write::{field_bytes, put_field, put_head};

// A writer writes from byte `at` on and gives the place after its part. What it asks of the buffer leaves room for the longest head
// before the last value.

// How many bytes the DER integers of r and s, 32 bytes each, take together.
fn pair_bytes(r: &[u8], s: &[u8]) -> usize
    requires { (length r.now ≤ 32) × (length s.now ≤ 32) }
    ensures { result ≡ length (pair r.now s.now) }
{
    let r_bytes = der_bytes(r);
    let s_bytes = der_bytes(s);
    field_bytes(r_bytes) + field_bytes(s_bytes)
}

// The sequence of r and s, each as the shortest unsigned DER integer.
fn put_pair(buf: &mut [u8], at: usize, r: &[u8], s: &[u8]) -> usize
    requires { (length r.now ≤ 32) × (length s.now ≤ 32) × (at + 73 ≤ length buf.old) }
    ensures { Wrote (field 0x30 (pair r.now s.now)) at result buf.old buf.new }
{
    let inner = put_head(buf, at, TAG_SEQUENCE, pair_bytes(r, s));
    let after_r = put_integer(buf, inner, r);
    put_integer(buf, after_r, s)
}

// SIGN: the public key, 65 bytes, and r and s, 32 bytes each.
pub fn put_signature(buf: &mut [u8], at: usize, key: &[u8], r: &[u8], s: &[u8]) -> usize
    requires { (length key.now ≤ 65) × (length r.now ≤ 32) × (length s.now ≤ 32) × (at + 143 ≤ length buf.old) }
    ensures { Wrote (signature key.now r.now s.now) at result buf.old buf.new }
{
    let inner_bytes = field_bytes(key.len()) + field_bytes(pair_bytes(r, s));
    let inner = put_head(buf, at, TAG_SIGNATURE, inner_bytes);
    let after_key = put_field(buf, inner, TAG_PUBLIC_KEY, key);
    put_pair(buf, after_key, r, s)
}
