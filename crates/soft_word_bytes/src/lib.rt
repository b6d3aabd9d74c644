// Bytes written in one word (docs/SOFTCARD.md): hexadecimal digits, a byte repeated or rising, the last bytes, and these joined by dots.
// Every length is in bytes.
// Proved: a word is read as the bytes that it means, or refused for the fault that it has, as the definition says. What the buffer holds
// after a fault is not said, but that its length is kept.
#![tactic(auto)]

ghost use Rattle.std.specs.Prelude.{◌≡◌, [], ◌-◌, ◌≤◌, length};
ghost use Rattle.text_fill.specs.Steps.{stepped};
ghost use Rattle.soft_word_bytes.specs.Meaning.{taken, within, all_hex, pairs, counted, piece_of, pieces_in, joined, meaning, Puts, Reads};

use std::error::Error;
use std::fmt;
use text_decimal::number;
use text_hex::hex;

// The most bytes that one word may mean.
pub const VALUE_MAX_BYTES: usize = 1024;

// Why a word is not taken: it is not written as bytes are, or it means more bytes than there is room for.
#[derive(Clone, Copy, Debug, PartialEq, Eq)]
pub enum ValueFault {
    Form,
    Many,
}

impl fmt::Display for ValueFault {
    fn fmt<W: fmt::Write>(&self, f: &mut fmt::Formatter<W>) -> fmt::Result {
        f.write_str(match self {
            ValueFault::Form => "not bytes",
            ValueFault::Many => "too many bytes",
        })
    }
}

impl Error for ValueFault {}

// The bytes of a slice after the first `len`.
fn append(bytes: &[u8], out: &mut [u8], len: usize) -> Result<usize, ValueFault>
    requires { len ≤ length out.old }
    ensures { Puts (within (length out.old - len) (taken bytes.now)) len result
        out.old out.new }
{
    let n = bytes.len();
    if out.len() - len < n {
        return Err(ValueFault::Many);
    }
    octets::put(out, len, bytes);
    Ok(len + n)
}

// n bytes after the first `len`: the first is `first`, and each is by `step` more than the one before it.
fn run(first: u8, step: u8, n: usize, out: &mut [u8], len: usize) -> Result<usize, ValueFault>
    requires { len ≤ length out.old }
    ensures { Puts (within (length out.old - len) (taken (stepped first step n))) len result
        out.old out.new }
{
    if out.len() - len < n {
        return Err(ValueFault::Many);
    }
    let end = len + n;
    text_fill::fill(&mut out[len..end], first, step);
    Ok(end)
}

// HH*N or HH+N.
fn counted(p: &[u8], step: u8, out: &mut [u8], len: usize) -> Result<usize, ValueFault>
    requires { (3 ≤ length p.now) × (len ≤ length out.old) }
    ensures { Puts (within (length out.old - len) (counted step p.now)) len result
        out.old out.new }
{
    let (Some(high), Some(low)) = (hex::hex_digit(p[0]), hex::hex_digit(p[1])) else {
        return Err(ValueFault::Form);
    };
    let Some(n) = number(&p[3..]) else {
        return Err(ValueFault::Form);
    };
    run(hex::hex_byte(high, low), step, n, out, len)
}

fn is_hex(p: &[u8]) -> bool
    ensures { result ≡ all_hex p.now }
{
    p.iter().all(|c| hex::hex_digit(*c).is_some())
}

// Pairs of digits.
fn digits(p: &[u8], out: &mut [u8], len: usize) -> Result<usize, ValueFault>
    requires { len ≤ length out.old }
    ensures { Puts (within (length out.old - len) (pairs p.now)) len result
        out.old out.new }
{
    let n = p.len() / 2;
    if n == 0 {
        return Err(ValueFault::Form);
    }
    if p.len() != 2 * n {
        return Err(ValueFault::Form);
    }
    if !is_hex(p) {
        return Err(ValueFault::Form);
    }
    if out.len() - len < n {
        return Err(ValueFault::Many);
    }
    let end = len + n;
    hex::decode(p, &mut out[len..end]);
    Ok(end)
}

// One piece of a word.
fn piece(p: &[u8], last: &[u8], out: &mut [u8], len: usize) -> Result<usize, ValueFault>
    requires { len ≤ length out.old }
    ensures { Puts (within (length out.old - len) (piece_of last.now p.now)) len result
        out.old out.new }
{
    if octets::same(p, b"last") {
        return append(last, out, len);
    }
    if p.len() < 3 {
        return digits(p, out, len);
    }
    if p[2] == b'*' {
        return counted(p, 0, out, len);
    }
    if p[2] == b'+' {
        return counted(p, 1, out, len);
    }
    digits(p, out, len)
}

// The pieces of a word, one after the other; the first fault decides.
fn pieces(w: &[u8], last: &[u8], out: &mut [u8]) -> Result<usize, ValueFault>
    ensures { Reads (joined last.now (length out.old) [] (pieces_in w.now)) result
        out.old out.new }
{
    let mut len = 0;
    for p in w.split(|c| *c == b'.') {
        len = piece(p, last, out, len)?;
    }
    Ok(len)
}

// The bytes that a word means, put into `out` from its start; `last` is what the piece `last` means.
pub fn bytes_of(w: &[u8], last: &[u8], out: &mut [u8]) -> Result<usize, ValueFault>
    ensures { Reads (meaning last.now w.now (length out.old)) result
        out.old out.new }
{
    if octets::same(w, b"-") {
        return Ok(0);
    }
    pieces(w, last, out)
}
