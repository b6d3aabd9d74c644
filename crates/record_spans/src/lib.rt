// The content of a field of the stored record, found by its place and taken: bytes, a path, the tap record, and the slots.
// Every length and place is in bytes.
// Proved: what is taken is what the definition takes, from any bytes of any length, and the place after the field is given.
#![tactic(auto)]

ghost use Rattle.std.specs.Prelude.{◌≡◌, ◌≤◌, length, drop, get_or};
ghost use Rattle.card.specs.State.{slot_count};
ghost use Rattle.record_rules.specs.Parse.{body, fit, path_from, tap_from, slots_from};
ghost use Rattle.record_spans.specs.Spans.{Spans, Behind, UsedTaken};

use card::{Card, Path, SLOT_BYTES, SLOTS_BYTES, Slot, Tap, wide};
use record_rules::HEAD_BYTES;

// Where a field's content starts and ends.
#[derive(Clone, Copy)]
pub struct FieldSpan {
    pub start: usize,
    pub end: usize,
}

// How many bytes of a room are in use, and the place after the field that they came from.
#[derive(Clone, Copy)]
pub struct UsedRead {
    pub used: u8,
    pub next: usize,
}

// A path read, and the place after its field.
#[derive(Clone, Copy)]
pub struct PathRead {
    pub path: Path,
    pub next: usize,
}

// The content of the field at a place, as far as the slice goes.
pub fn content_span(s: &[u8], at: usize) -> FieldSpan
    requires { at ≤ length s.now }
    ensures { Spans s.now at result }
{
    if s.len() - at < HEAD_BYTES {
        return FieldSpan {
            start: s.len(),
            end: s.len(),
        };
    }
    let start = at + HEAD_BYTES;
    let len = wide(s[at + 1]) * 256 + wide(s[at + 2]);
    if s.len() - start < len {
        return FieldSpan {
            start,
            end: s.len(),
        };
    }
    FieldSpan {
        start,
        end: start + len,
    }
}

// Fills dst from src, with zeros where src has ended.
fn fill(dst: &mut [u8], src: &[u8])
    ensures { dst.new ≡ fit (length dst.old) src.now }
{
    let taken = dst.len().min(src.len());
    dst[..taken].copy_from_slice(&src[..taken]);
    dst[taken..].fill(0);
}

// Fills dst from the content of the field at a place, and gives the place after the field.
pub fn take_field(s: &[u8], at: usize, dst: &mut [u8]) -> usize
    requires { at ≤ length s.now }
    ensures { (dst.new ≡ fit (length dst.old) (body (drop at s.now))) × Behind s.now at result }
{
    let field = content_span(s, at);
    let start = field.start;
    let end = field.end;
    fill(dst, &s[start..end]);
    end
}

// Fills dst, a room of at most 255 bytes, from the content of the field at a place, and tells how much of it is in use.
fn take_used(s: &[u8], at: usize, dst: &mut [u8]) -> UsedRead
    requires { (at ≤ length s.now) × (length dst.old ≤ 255) }
    ensures { UsedTaken (body (drop at s.now)) dst.old result.used dst.new × Behind s.now at result.next }
{
    let field = content_span(s, at);
    let start = field.start;
    let end = field.end;
    fill(dst, &s[start..end]);
    let count = end - start;
    if dst.len() < count {
        return UsedRead {
            used: dst.len() as u8,
            next: end,
        };
    }
    UsedRead {
        used: count as u8,
        next: end,
    }
}

pub fn take_path(s: &[u8], at: usize) -> PathRead
    requires { at ≤ length s.now }
    ensures { (result.path ≡ path_from (body (drop at s.now))) × Behind s.now at result.next }
{
    let mut bytes = [0u8; card::PATH_MAX_BYTES];
    let read = take_used(s, at, &mut bytes);
    let path = Path {
        len: read.used,
        bytes,
    };
    PathRead {
        path,
        next: read.next,
    }
}

// The tap record; none where no field is left.
pub fn take_tap(s: &[u8], at: usize) -> Tap
    requires { at ≤ length s.now }
    ensures { result ≡ tap_from (body (drop at s.now)) }
{
    let mut bytes = [0u8; card::TAP_MAX_BYTES];
    let read = take_used(s, at, &mut bytes);
    Tap {
        len: read.used,
        bytes,
    }
}

pub fn slots_from(x: [u8; SLOTS_BYTES]) -> [Slot; Card::SLOTS]
    ensures { result ≡ slots_from slot_count x }
{
    let free = Slot {
        filled: 0,
        key: [0; card::KEY_BYTES],
    };
    let mut slots = [free; Card::SLOTS];
    for i in 0..Card::SLOTS {
        let at = SLOT_BYTES * i;
        let mut key = [0u8; card::KEY_BYTES];
        fill(&mut key, &x[at + 1..]);
        let filled = x[at];
        let slot = Slot { filled, key };
        slots[i] = slot;
    }
    slots
}
