// Decimal numbers as the soft card reads them: how many bytes a word means or a buffer has.
// Proved: any bytes are read as the number that they spell, or as none, as the definition says.
#![tactic(auto)]

ghost use Rattle.std.specs.Prelude.{◌≡◌};
ghost use Rattle.text_decimal.specs.Decimal.{digit_of, number_of};

// The largest number.
pub const MOST: usize = 1024;

// The most digits.
const MOST_DIGITS: usize = 4;

// What a character is worth as a digit, where it is one.
#[tactic(auto, unfolding(crate::specs::Decimal::is_digit))]
fn digit(c: u8) -> Option<usize>
    ensures { result ≡ digit_of c }
{
    match c {
        b'0'..=b'9' => Some((c - b'0') as usize),
        _ => None,
    }
}

// The number that a word spells, where it is one.
#[tactic(auto, using(crate::proofs::Facts::read_over))]
pub fn number(w: &[u8]) -> Option<usize>
    ensures { result ≡ number_of w.now }
{
    if w.is_empty() || w.len() > MOST_DIGITS {
        return None;
    }
    let mut n = 0;
    for c in w {
        let d = digit(*c)?;
        n = n * 10 + d;
        if n > MOST {
            return None;
        }
    }
    Some(n)
}
