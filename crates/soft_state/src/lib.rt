// What the soft card holds: the card, the terminal's session, and the bytes that were last written; and the words of a call as bytes
// and numbers. Every length is in bytes.
// Proved: every function is safe and ends.
#![tactic(auto)]

ghost use Rattle.std.specs.Prelude.{◌≡◌, ◌≤◌, replicate, [], IfOk, IsOk, OnOk};
ghost use Rattle.soft_state.specs.Items.{items};

mod bad_line;
mod line;
mod value;

pub use bad_line::{BadLine, CallError};
pub use line::Line;
use soft_card_bytes::{CARD_BYTES, SESSION_BYTES};
use soft_word_bytes::VALUE_MAX_BYTES;
use std::alloc::AllocError;
use std::io;
pub use value::Value;

// The soft card: where it writes, the card and the session as their bytes, and the bytes that were last written.
pub struct Desk<'a, R> {
    pub rt: &'a R,
    pub card: [u8; CARD_BYTES],
    pub session: [u8; SESSION_BYTES],
    pub last: Value,
}

impl<'a, R> Clone for Desk<'a, R> {
    fn clone(&self) -> Result<Self, AllocError> {
        Ok(*self)
    }
}

impl<'a, R> Copy for Desk<'a, R> {}

impl<'a, R> Desk<'a, R> {
    // As it begins: a card and a session of zeros, and nothing written.
    pub fn new(rt: &'a R) -> Self
        ensures card { result.card ≡ replicate CARD_BYTES 0 }
        ensures session { result.session ≡ replicate SESSION_BYTES 0 }
        ensures last { items result.last ≡ [] }
    {
        Desk {
            rt,
            card: [0; CARD_BYTES],
            session: [0; SESSION_BYTES],
            last: Value::zeros(0),
        }
    }

    // A buffer of so many zeros, for an operation to write to. No more are lent than a word may mean.
    pub fn buffer(&self, room_bytes: usize) -> io::Result<Value>
        ensures zeros { IfOk result (λ v. items v ≡ replicate room_bytes 0) }
        ensures lent { room_bytes ≤ VALUE_MAX_BYTES → IsOk result }
        ensures bound { OnOk result (room_bytes ≤ VALUE_MAX_BYTES) }
    {
        if room_bytes > VALUE_MAX_BYTES {
            return Err(io::Error::from(io::ErrorKind::InvalidInput));
        }
        Ok(Value::zeros(room_bytes))
    }
}

#[cfg(test)]
mod tests {
    use super::*;
    use std::alloc::Global;
    use std::test::Fail;

    // A line's words as bytes; `last` is empty at first. No room is lent over the most.
    #[test]
    fn words_are_read(rt: HostRuntime) -> Result<(), Fail> {
        let desk = Desk::new(&rt);
        let line = Line {
            bytes: b"set last.01*2 0A0B",
        };
        let value = line.value(&desk, 1, "BYTES")?;
        assert_eq!(rt; value.as_slice(), [1, 1].as_slice());
        let pair: [u8; 2] = line.array(&desk, 2, "BYTES")?;
        assert_eq!(rt; pair, [10, 11]);
        assert_eq!(rt; desk.buffer(3)?.as_slice(), [0, 0, 0].as_slice());
        assert_eq!(rt; desk.buffer(VALUE_MAX_BYTES)?.len(), VALUE_MAX_BYTES);
        assert!(rt; desk.buffer(VALUE_MAX_BYTES + 1).is_err());
        Ok(())
    }

    fn zeros(alloc: Global, room_bytes: usize) -> Result<Vec<u8>, CallError> {
        Ok(vec![in alloc; 0; room_bytes]?)
    }

    // Memory that a caller asks for and does not get ends its call with that error.
    #[test]
    fn memory_runs_out(rt: HostRuntime) -> Result<(), Fail> {
        assert_eq!(rt; zeros(rt.alloc(), 3)?.as_slice(), [0, 0, 0].as_slice());
        let none = zeros(rt.alloc(), usize::MAX);
        assert!(rt;
            matches!(&none, Err(CallError::Io(error)) if error.kind() == io::ErrorKind::OutOfMemory)
        );
        Ok(())
    }
}
