// Why a line is not played.
ghost use Rattle.std.specs.Prelude.{◌≡◌, Some};
ghost use Rattle.std.specs.declared.io.ErrorKind.TheVariants.{OutOfMemory};
ghost use Rattle.soft_state.specs.Kinds.{failed_kind};

use std::alloc::AllocError;
use std::error::Error;
use std::{fmt, io};
use text_print::Length;

// What is wrong with a line. A name is that of a call, of a field, or of a word in the table of calls.
#[derive(Clone, Copy, Debug, PartialEq, Eq)]
pub enum BadLine {
    TooLong,
    NoSuchCall,
    OtherWords(&'static str),
    NotBytes(&'static str),
    TooManyBytes(&'static str),
    OtherLength {
        name: &'static str,
        wanted_bytes: usize,
        given_bytes: usize,
    },
    Room,
    NoSuchField,
}

impl fmt::Display for BadLine {
    fn fmt<W: fmt::Write>(&self, f: &mut fmt::Formatter<W>) -> fmt::Result {
        match self {
            BadLine::TooLong => f.write_str("longer than 4096 bytes"),
            BadLine::NoSuchCall => f.write_str("no such call, help lists them"),
            BadLine::OtherWords(name) => write!(f, "{name} takes other words, help lists them"),
            BadLine::NotBytes(name) => write!(f, "{name} is not bytes"),
            BadLine::TooManyBytes(name) => write!(f, "{name} has more than 1024 bytes"),
            BadLine::OtherLength {
                name,
                wanted_bytes,
                given_bytes,
            } => {
                let wanted = Length(*wanted_bytes);
                let given = Length(*given_bytes);
                write!(f, "{name} has {wanted}, not {given}")
            }
            BadLine::Room => f.write_str("the room is a number of bytes, 0 to 1024"),
            BadLine::NoSuchField => f.write_str("the card has no such field"),
        }
    }
}

impl Error for BadLine {}

// Why a call ends early: its line is bad and nothing changed, or a write or the memory failed.
#[derive(Debug, Drop)]
pub enum CallError {
    Line(BadLine),
    Io(io::Error),
}

impl fmt::Display for CallError {
    fn fmt<W: fmt::Write>(&self, f: &mut fmt::Formatter<W>) -> fmt::Result {
        match self {
            CallError::Line(bad) => write!(f, "{bad}"),
            CallError::Io(error) => write!(f, "{error}"),
        }
    }
}

impl Error for CallError {}

impl From<BadLine> for CallError {
    fn from(bad: BadLine) -> CallError {
        CallError::Line(bad)
    }
}

impl From<io::Error> for CallError {
    fn from(error: io::Error) -> CallError {
        CallError::Io(error)
    }
}

// For callers that ask for memory; the soft card asks for none.
impl From<AllocError> for CallError {
    ghost from_gives = { λ _ e. failed_kind e ≡ Some OutOfMemory };

    fn from(error: AllocError) -> CallError {
        CallError::Io(io::Error::from(error))
    }
}
