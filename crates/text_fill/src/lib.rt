// Bytes made by a rule, to be sent as data or put into a buffer. For the programs.
// Every length is in bytes.
// Proved: `fill` and `fill_pattern` write the bytes that their rule says, and `bounded` is the lesser of a number and a length.
#![tactic(auto)]

ghost use Rattle.std.specs.Prelude.{◌≡◌, min, length};
ghost use Rattle.io.specs.Counts.{IsPrefixLen};
ghost use Rattle.text_fill.specs.Steps.{stepped};

// What is in a buffer before an operation gets it.
const PATTERN_FIRST: u8 = 0xa5;

const PATTERN_STEP: u8 = 13;

// Fills buf: byte 0 is `first`, and each byte is by `step` more than the one before it, the carry dropped.
pub fn fill(buf: &mut [u8], first: u8, step: u8)
    ensures { buf.new ≡ stepped first step (length buf.old) }
{
    let mut b = first;
    for x in buf.iter_mut() {
        *x = b;
        b = b.wrapping_add(step);
    }
}

pub fn fill_pattern(buf: &mut [u8])
    ensures { buf.new ≡ stepped 0xA5 13 (length buf.old) }
{
    fill(buf, PATTERN_FIRST, PATTERN_STEP);
}

// n, or the length of buf in bytes where that is less.
pub fn bounded(n: usize, buf: &[u8]) -> usize
    ensures prefix_len { IsPrefixLen result buf.now }
    ensures value { result ≡ min n (length buf.now) }
{
    n.min(buf.len())
}
