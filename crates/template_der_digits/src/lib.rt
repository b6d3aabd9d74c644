// What the content of a DER integer is made of: which bytes of a number are leading zeros, and whether a zero has to be put in front.
// Every length is in bytes.
// Proved: zeros, the zero in front and the length of the content are those that the definitions of `template` give.
#![tactic(auto)]

ghost use Rattle.std.specs.Prelude.{◌≡◌, length};
ghost use Rattle.template_rules.specs.Der.{leading_zeros, needs_zero, der_content};

// The bit that makes the first byte of a DER integer negative.
pub const SIGN_BIT: u8 = 0x80;

// How many zeros come before the first byte of a number that is not zero.
pub fn leading_zeros(number: &[u8]) -> usize
    ensures { result ≡ leading_zeros number.now }
{
    number.iter().position(|b| *b != 0).unwrap_or(number.len())
}

// Whether the bytes need a zero in front, to be the content of a DER integer that is not negative.
pub fn needs_zero(digits: &[u8]) -> bool
    ensures { result ≡ needs_zero digits.now }
{
    match *digits {
        [] => true,
        [first, ..] => first >= SIGN_BIT,
    }
}

// How many bytes the content of a number's DER integer takes.
#[tactic(auto, using(template_rules::proofs::DerFacts::zeros_within))]
pub fn der_bytes(number: &[u8]) -> usize
    ensures { result ≡ length (der_content number.now) }
{
    let digits = &number[leading_zeros(number)..];
    if needs_zero(digits) {
        digits.len() + 1
    } else {
        digits.len()
    }
}
