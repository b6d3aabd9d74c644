// The words of a call's line as bytes and numbers.
ghost use Rattle.std.specs.Prelude.{◌≡◌, ◌+◌, ◌^◌, ◌<◌, ◌≤◌, IfOk, Some, Ok, [], ◌∷◌, ok_or};
ghost use Rattle.soft_state.specs.declared.bad_line.BadLine.TheVariants.{Room};
ghost use Rattle.text_words.specs.Words.{word_of, word_count};
ghost use Rattle.text_decimal.specs.Decimal.{number_of};
ghost use Rattle.soft_state.specs.Items.{items};
ghost use Rattle.soft_word_bytes.specs.Meaning.{taken, meaning};

use crate::{BadLine, CallError, Desk, Value};
use soft_word_bytes::{VALUE_MAX_BYTES, ValueFault};

// A line, whose first word is the call's name.
#[derive(Clone, Copy)]
pub struct Line<'a> {
    pub bytes: &'a [u8],
}

impl<'a> Line<'a> {
    // How many words the line has, the call's name included.
    pub fn count(&self) -> usize
        ensures { result ≡ word_count self.now.bytes.now }
    {
        text_words::count(self.bytes)
    }

    // Word number k; no bytes where the line has fewer words.
    pub fn word(&self, k: usize) -> &'a [u8]
        ensures { result.now ≡ word_of k self.now.bytes.now }
    {
        text_words::nth_word(self.bytes, k)
    }

    // The bytes of word number k, which the table of calls names so.
    pub fn value<R>(
        &self,
        desk: &Desk<'_, R>,
        k: usize,
        name: &'static str,
    ) -> Result<Value, CallError>
        ensures { IfOk result (λ v. meaning (items desk.now.last) (word_of k self.now.bytes.now) VALUE_MAX_BYTES ≡ taken (items v)) }
    {
        let mut value = Value::zeros(VALUE_MAX_BYTES);
        let last = desk.last.as_slice();
        let len = soft_word_bytes::bytes_of(self.word(k), last, &mut value.space).map_err(
            |fault| match fault {
                ValueFault::Form => BadLine::NotBytes(name),
                ValueFault::Many => BadLine::TooManyBytes(name),
            },
        )?;
        value.truncate(len);
        Ok(value)
    }

    // The same where the call takes N bytes.
    pub fn array<const N: usize, R>(
        &self,
        desk: &Desk<'_, R>,
        k: usize,
        name: &'static str,
    ) -> Result<[u8; N], CallError>
        ensures { IfOk result (λ a. meaning (items desk.now.last) (word_of k self.now.bytes.now) VALUE_MAX_BYTES ≡ taken a) }
    {
        let value = self.value(desk, k, name)?;
        match <[u8; N]>::try_from(value.as_slice()) {
            Ok(bytes) => Ok(bytes),
            Err(_) => Err(CallError::Line(BadLine::OtherLength {
                name,
                wanted_bytes: N,
                given_bytes: value.len(),
            })),
        }
    }

    // The room that a call gives after its first k words, or the least that the operation takes.
    pub fn room(&self, k: usize, least_bytes: usize) -> Result<usize, BadLine>
        ensures least { word_count self.now.bytes.now ≤ k → result ≡ Ok least_bytes }
        ensures given { k < word_count self.now.bytes.now → k + 1 < 2 ^ 64
            → IfOk result (λ n. number_of (word_of (k + 1) self.now.bytes.now) ≡ Some n) }
        ensures taken { k < word_count self.now.bytes.now → k + 1 < 2 ^ 64 → word_of k self.now.bytes.now ≡ 114 ∷ 111 ∷ 111 ∷ 109 ∷ []
            → result ≡ ok_or (number_of (word_of (k + 1) self.now.bytes.now)) Room }
    {
        if self.count() <= k {
            return Ok(least_bytes);
        }
        match self.word(k) {
            b"room" => text_decimal::number(self.word(k.saturating_add(1))).ok_or(BadLine::Room),
            _ => Err(BadLine::Room),
        }
    }
}
