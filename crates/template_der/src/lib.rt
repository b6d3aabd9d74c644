// DER integers, written into a buffer from numbers that are written high byte first.
// Every length is in bytes.
// Proved: what is written is the shortest unsigned DER integer that the definitions of `template` give, and no other byte of the buffer is
// touched.
#![tactic(auto)]

ghost use Rattle.std.specs.Prelude.{◌≡◌, ◌+◌, ◌≤◌, ◌<◌, length};
ghost use Rattle.template_rules.specs.Template.{field};
ghost use Rattle.template_rules.specs.Der.{with_sign, der_integer};
ghost use Rattle.template_rules.specs.Writing.{Wrote};

use octets::put;
use template_der_digits::{leading_zeros, needs_zero};
use template_rules::TAG_INTEGER;
use template_write::{put_field, put_head};

// Writes a DER integer from byte `at` on, of a number without leading zeros, and gives the place after it.
fn put_digits(buf: &mut [u8], at: usize, digits: &[u8]) -> usize
    requires { (length digits.now < 255) × (at + 4 + length digits.now ≤ length buf.old) }
    ensures { Wrote (field 0x02 (with_sign digits.now)) at result buf.old buf.new }
{
    if !needs_zero(digits) {
        return put_field(buf, at, TAG_INTEGER, digits);
    }
    let behind = put_head(buf, at, TAG_INTEGER, digits.len() + 1);
    let zero = [0u8];
    put(buf, behind, &zero);
    put(buf, behind + 1, digits);
    behind + 1 + digits.len()
}

// Writes a number, high byte first, as a DER integer from byte `at` on, and gives the place after it. There is room for the longest
// head, a zero in front and the number.
#[tactic(auto, using(template_rules::proofs::DerFacts::zeros_within))]
pub fn put_integer(buf: &mut [u8], at: usize, number: &[u8]) -> usize
    requires { (length number.now < 255) × (at + 4 + length number.now ≤ length buf.old) }
    ensures { Wrote (der_integer number.now) at result buf.old buf.new }
{
    put_digits(buf, at, &number[leading_zeros(number)..])
}
