// Status words by name.
ghost use Rattle.std.specs.Prelude.{◌≡◌, ◌+◌, ◌*◌, ◌-◌, ◌<◌, ◌↔◌, length, get_or, IsNone, IfSome};

use std::fmt;

// A status word, SW1 SW2, as one number.
#[derive(Clone, Copy, PartialEq, Eq)]
pub struct StatusWord(pub u16);

impl StatusWord {
    // The status word at the end of a response, where it has the two bytes.
    pub fn of(response: &[u8]) -> Option<StatusWord>
        ensures none { IsNone result ↔ (length response.now < 2) }
        ensures value { IfSome result (λ w. w.0 ≡ get_or response.now (length response.now - 2) 0 * 256
            + get_or response.now (length response.now - 1) 0) }
    {
        match response {
            [.., high, low] => Some(StatusWord(u16::from(*high) * 256 + u16::from(*low))),
            _ => None,
        }
    }
}

impl fmt::Display for StatusWord {
    fn fmt<W: fmt::Write>(&self, f: &mut fmt::Formatter<W>) -> fmt::Result {
        let word = self.0;
        write!(f, "{word:04X}, ")?;
        match word {
            0x63C0 => f.write_str("no tries left"),
            0x63C1 => f.write_str("1 try left"),
            0x63C2..=0x63C5 => write!(f, "{} tries left", word - 0x63C0),
            0x6700 => f.write_str("wrong length"),
            0x6982 => f.write_str("security condition not met"),
            0x6984 => f.write_str("key not usable"),
            0x6985 => f.write_str("conditions not met"),
            0x6A80 => f.write_str("wrong data"),
            0x6A82 => f.write_str("not found"),
            0x6A84 => f.write_str("no free slot"),
            0x6A86 => f.write_str("wrong P1 or P2"),
            0x6D00 => f.write_str("unknown instruction"),
            0x6E00 => f.write_str("unknown class"),
            0x9000 => f.write_str("success"),
            _ => f.write_str("not known"),
        }
    }
}
