// The templates that EXPORT answers, a public key alone or with its private key, written from plain values into a buffer.
// Every length is in bytes.
// Proved: each writer leaves in the buffer exactly the bytes that the definition of `template_answers` gives, and touches no other.
#![tactic(auto)]

ghost use Rattle.std.specs.Prelude.{◌+◌, ◌≤◌, length};
ghost use Rattle.template_rules.specs.Writing.{Wrote};
ghost use Rattle.template_answers.specs.Answers.{exported_public, exported_pair};

use template_keypair::{TAG_KEYPAIR, TAG_PRIVATE_KEY};
use template_rules::TAG_PUBLIC_KEY;
use template_write::{field_bytes, put_field, put_head};

// Each writer writes from byte `at` on and gives the place after its template. What it asks of the buffer leaves room for the longest
// head before the last value.

// The public key alone, 65 bytes.
pub fn put_exported_public(buf: &mut [u8], at: usize, key: &[u8]) -> usize
    requires { (length key.now ≤ 65) × (at + 71 ≤ length buf.old) }
    ensures { Wrote (exported_public key.now) at result buf.old buf.new }
{
    let inner = put_head(buf, at, TAG_KEYPAIR, field_bytes(key.len()));
    put_field(buf, inner, TAG_PUBLIC_KEY, key)
}

// The public key, 65 bytes, and the private key, 32 bytes.
pub fn put_exported_pair(buf: &mut [u8], at: usize, key: &[u8], private: &[u8]) -> usize
    requires { (length key.now ≤ 65) × (length private.now ≤ 32) × (at + 105 ≤ length buf.old) }
    ensures { Wrote (exported_pair key.now private.now) at result buf.old buf.new }
{
    let inner_bytes = field_bytes(key.len()) + field_bytes(private.len());
    let inner = put_head(buf, at, TAG_KEYPAIR, inner_bytes);
    let after_key = put_field(buf, inner, TAG_PUBLIC_KEY, key);
    put_field(buf, after_key, TAG_PRIVATE_KEY, private)
}
