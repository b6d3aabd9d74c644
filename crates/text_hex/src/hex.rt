// Hexadecimal text in ASCII, two digits to a byte.
ghost use Rattle.std.specs.Prelude.{◌≡◌, true, ◌+◌, ◌*◌, ◌<◌, length};
ghost use Rattle.std.specs.Option.{IfSome, IsSome};
ghost use Rattle.text_hex.specs.Hex.{digit_of, bytes_of, Spelled, Spells};

// What a character is worth as a hexadecimal digit, where it is one.
#[tactic(auto, unfolding(crate::specs::Hex::digit_of))]
pub fn hex_digit(c: u8) -> Option<u8>
    ensures value { result ≡ digit_of c }
    ensures below_16 { IfSome result (λ d. d < 16) }
{
    match c {
        b'0'..=b'9' => Some(c - b'0'),
        b'A'..=b'F' => Some(c - b'A' + 10),
        b'a'..=b'f' => Some(c - b'a' + 10),
        _ => None,
    }
}

// The byte that two digits spell.
pub fn hex_byte(high: u8, low: u8) -> u8
    requires { (high < 16) × (low < 16) }
    ensures { result ≡ high * 16 + low }
{
    high * 16 + low
}

// Puts the bytes that the text spells into `out`, and answers whether every character is a digit.
pub fn decode(text: &[u8], out: &mut [u8]) -> bool
    requires { length text.now ≡ 2 * length out.old }
    ensures spelled { result ≡ true → Spelled (length out.old) text.now }
    ensures value { Spelled (length out.old) text.now → result ≡ true }
    ensures out_after { result ≡ true → out.new ≡ bytes_of (length out.old) text.now }
{
    for (i, x) in out.iter_mut().enumerate() {
        let (Some(high), Some(low)) = (hex_digit(text[2 * i]), hex_digit(text[2 * i + 1])) else {
            return false;
        };
        *x = hex_byte(high, low);
    }
    true
}

// Puts the bytes that the text spells into `out`, and answers whether it spells as many as `out` has.
pub fn read(text: &[u8], out: &mut [u8]) -> bool
    ensures spells { result ≡ true → Spells (length out.old) text.now }
    ensures value { Spells (length out.old) text.now → result ≡ true }
    ensures out_after { result ≡ true → out.new ≡ bytes_of (length out.old) text.now }
{
    text.len() % 2 == 0 && text.len() / 2 == out.len() && decode(text, out)
}

// The N bytes that a text spells, where it spells so many.
pub fn bytes<const N: usize>(text: &[u8]) -> Option<[u8; N]>
    ensures spelled { IfSome result (λ b. Spells N text.now × (b ≡ bytes_of N text.now)) }
    ensures value { Spells N text.now → IsSome result }
{
    let mut out = [0; N];
    if read(text, &mut out) {
        Some(out)
    } else {
        None
    }
}
