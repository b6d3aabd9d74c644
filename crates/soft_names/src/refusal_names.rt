// Refusals by name.
ghost use Rattle.std.specs.Prelude.{◌≡◌, ◌≤◌, ◌↔◌, IsNone, IfSome};
ghost use Rattle.soft_names.specs.Numbers.{number_of};

use std::fmt;
use text_print::Length;

// Why an operation was refused, by its number in the table of refusals (crates/refusals).
#[derive(Clone, Copy, Debug, PartialEq, Eq)]
pub enum Refusal {
    Unsound = 1,
    Room = 2,
    Supply = 3,
    Malformed = 4,
    TooDeep = 5,
    DataLong = 6,
    NotGenuine = 7,
    NotRecord = 8,
    WrongCount = 9,
    NumberTooLarge = 10,
    WrongChecksum = 11,
}

impl Refusal {
    // The refusal of this number; None for 0, where there was none. The operations of the soft card give no number over 11.
    pub fn of(number: u8) -> Option<Refusal>
        ensures none { IsNone result ↔ (number ≡ 0) }
        ensures value { IfSome result (λ r. number ≤ 11 → number_of r ≡ number) }
    {
        match number {
            0 => None,
            1 => Some(Refusal::Unsound),
            2 => Some(Refusal::Room),
            3 => Some(Refusal::Supply),
            4 => Some(Refusal::Malformed),
            5 => Some(Refusal::TooDeep),
            6 => Some(Refusal::DataLong),
            7 => Some(Refusal::NotGenuine),
            8 => Some(Refusal::NotRecord),
            9 => Some(Refusal::WrongCount),
            10 => Some(Refusal::NumberTooLarge),
            _ => Some(Refusal::WrongChecksum),
        }
    }
}

// A refusal as it is told: its number, and what it means where the operation asks for a buffer of `room_bytes`.
#[derive(Clone, Copy)]
pub struct Refused {
    pub refusal: Refusal,
    pub room_bytes: usize,
}

impl fmt::Display for Refused {
    fn fmt<W: fmt::Write>(&self, f: &mut fmt::Formatter<W>) -> fmt::Result {
        write!(f, "refusal {}, ", self.refusal as u8)?;
        match self.refusal {
            Refusal::Unsound => f.write_str("the card is not sound"),
            Refusal::Room => write!(f, "the buffer has fewer than {}", Length(self.room_bytes)),
            Refusal::Supply => f.write_str("the length of the supply or its flag byte is wrong"),
            Refusal::Malformed => f.write_str("malformed"),
            Refusal::TooDeep => f.write_str("too deep"),
            Refusal::DataLong => f.write_str("the data has more than 223 bytes"),
            Refusal::NotGenuine => f.write_str("not genuine"),
            Refusal::NotRecord => f.write_str("the bytes are no stored record"),
            Refusal::WrongCount => f.write_str("not 12, 15, 18, 21 or 24 numbers of 2 bytes"),
            Refusal::NumberTooLarge => f.write_str("a number is over 2047"),
            Refusal::WrongChecksum => f.write_str("the checksum differs"),
        }
    }
}
