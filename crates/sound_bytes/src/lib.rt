// Tests over bytes that soundness asks for: whether each is a digit, and whether each from a place on is zero.
// Every length is in bytes.
// Proved: each answer is the definition's, whatever the bytes.
#![tactic(auto)]

ghost use Rattle.std.specs.Prelude.{◌≡◌, drop};
ghost use Rattle.card.specs.Slots.{all_of, all_zero};
ghost use Rattle.card.specs.Sound.{is_digit};

// Whether each byte is a digit.
pub fn digits(s: &[u8]) -> bool
    ensures { result ≡ all_of is_digit s.now }
{
    s.iter().all(|b| b.is_ascii_digit())
}

// Whether each byte from a place on is zero.
pub fn zero_from(s: &[u8], from: usize) -> bool
    ensures { result ≡ all_zero (drop from s.now) }
{
    // By places: with an iterator a caller's card is copied first, and takes stack and time for it.
    for i in from..s.len() {
        if s[i] != 0 {
            return false;
        }
    }
    true
}
