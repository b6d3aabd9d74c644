// Lines of standard input, for the soft card.
// Every length is in bytes.
// Proved: every function is safe and ends, and a line that is read has no more bytes than it may have.
#![tactic(auto)]

ghost use Rattle.std.specs.Prelude.{◌≡◌, ◌≤◌, length, Some, IfOk, IfSome};
ghost use Rattle.std.specs.declared.io.ErrorKind.TheVariants.{OutOfMemory};
ghost use Rattle.text_line.specs.Kinds.{failed_kind};

use std::alloc::{AllocError, AllocFailed};
use std::error::Error;
use std::io::Read;
use std::{fmt, io};

// Why a line is not read: it has more bytes than there is room for, or the input or the memory failed.
#[derive(Debug, Drop)]
pub enum LineError {
    TooLong,
    Io(io::Error),
}

impl fmt::Display for LineError {
    fn fmt<W: fmt::Write>(&self, f: &mut fmt::Formatter<W>) -> fmt::Result {
        match self {
            LineError::TooLong => f.write_str("the line is too long"),
            LineError::Io(error) => write!(f, "{error}"),
        }
    }
}

impl Error for LineError {}

impl From<io::Error> for LineError {
    fn from(error: io::Error) -> LineError {
        LineError::Io(error)
    }
}

// For callers that ask for memory; `read_line` asks for none.
impl From<AllocFailed<u8>> for LineError {
    ghost from_gives = { λ _ e. failed_kind e ≡ Some OutOfMemory };

    fn from(error: AllocFailed<u8>) -> LineError {
        LineError::Io(io::Error::from(AllocError::from(error)))
    }
}

// Reads a line of the input into `buf`, and gives the part of `buf` that it fills, without the line feed that ends it; None where the input
// has ended. A line that is longer than `buf` is read to its end, and `buf` holds its start.
// The input is read byte by byte, so nothing behind the line feed is taken from it.
// After a read that failed, `buf` holds what was read of the line before it.
pub fn read_line<'b>(
    input: &mut impl Read,
    buf: &'b mut [u8],
) -> Result<Option<&'b [u8]>, LineError>
    ensures { IfOk result (λ read. IfSome read (λ line. length line.now ≤ length buf.old)) }
{
    let mut len = 0;
    let mut found = false;
    let mut long = false;
    for byte in input.bytes() {
        let byte = byte?;
        found = true;
        if byte == b'\n' {
            break;
        }
        if len < buf.len() {
            buf[len] = byte;
            len += 1;
        } else {
            long = true;
        }
    }
    if long {
        return Err(LineError::TooLong);
    }
    Ok(found.then_some(&buf[..len]))
}

#[cfg(test)]
mod tests {
    use super::*;
    use std::test::Fail;

    // Two lines, the second with no line feed and too long, of which the start is kept, and then the end.
    #[test]
    fn lines_are_read(rt: HostRuntime) -> Result<(), Fail> {
        let mut input: &[u8] = b"ab\nlonger";
        let mut buf = [0u8; 2];
        let line = read_line(&mut input, &mut buf)?;
        assert_eq!(rt; line.map(|line| line.len()), Some(2));
        let long = read_line(&mut input, &mut buf);
        assert!(rt; matches!(&long, Err(LineError::TooLong)));
        assert_eq!(rt; buf, *b"lo");
        assert!(rt; read_line(&mut input, &mut buf)?.is_none());
        Ok(())
    }

    // A byte for which a caller has no memory ends its line with that error.
    #[test]
    fn memory_runs_out(rt: HostRuntime) -> Result<(), Fail> {
        let failed = Err::<u8, _>(AllocFailed { value: b'a' });
        let line: Result<u8, LineError> = failed.map_err(LineError::from);
        assert!(rt;
            matches!(&line, Err(LineError::Io(error)) if error.kind() == io::ErrorKind::OutOfMemory)
        );
        Ok(())
    }
}
