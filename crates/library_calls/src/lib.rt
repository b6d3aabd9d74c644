// WRITE and the tap read as the C boundary takes and gives them, and the structs of numbers for what each operation tells.
// Every length, room, count and offset is in bytes (WALK counts fields); a refusal 0 means that there was none.
// Proved: the promises of the operations by value.
#![tactic(auto)]

ghost use Rattle.std.specs.Prelude.{◌≡◌};
ghost use Rattle.record_write.specs.Wrote.{WroteRecord};
ghost use Rattle.record_tap.specs.Tap.{tap_place};
ghost use Rattle.library_calls.specs.Left.{written_of};
ghost use Rattle.library_calls.specs.Tapped.{tapped_of};

use card::Card;
use record_tap::TapPlace;
use refusals::{REFUSAL_NONE, REFUSAL_NOT_RECORD};

// Which of two slices the tap record is in: none, since the stored record is refused; the stored record; or the factory record.
pub const TAP_NONE: u8 = 0;

pub const TAP_RECORD: u8 = 1;

pub const TAP_FACTORY: u8 = 2;

// What SEAL, UNSEAL, WRITE and ENTROPY report: the refusal's number, or 0 for none, and how many bytes they wrote from the buffer's start.
#[repr(C)]
#[derive(Clone, Copy)]
pub struct Counted {
    pub refusal: u8,
    pub count: usize,
}

// What ANSWER reports: the refusal's number, or 0 for none; how many bytes it wrote from the buffer's start; and the fault offset in bytes
// from the start of the opened data, or rules::NO_FAULT.
#[repr(C)]
#[derive(Clone, Copy)]
pub struct AnswerTold {
    pub refusal: u8,
    pub count: usize,
    pub fault_offset: usize,
}

// What WALK reports: the refusal's number, or 0 for none; how many fields that are not templates it counted; and, where it refuses, the fault
// offset in bytes from the input's start, else 0.
#[repr(C)]
#[derive(Clone, Copy)]
pub struct WalkTold {
    pub refusal: u8,
    pub count: usize,
    pub fault_offset: usize,
}

// What the tap read reports: the refusal's number, or 0 for none; which slice, as TAP_..; and where the part begins in it and how long it is,
// in bytes.
#[repr(C)]
#[derive(Clone, Copy)]
pub struct Tapped {
    pub refusal: u8,
    pub source: u8,
    pub offset: usize,
    pub length: usize,
}

// WRITE by value.
pub fn written(card: Card, buf: &mut [u8]) -> Counted
    ensures { WroteRecord card (written_of result) buf.old buf.new }
{
    let told = record_write::write(card, buf);
    let refusal = told.refusal;
    let count = told.count;
    Counted { refusal, count }
}

// The tap read, of a factory record of this many bytes.
pub fn tap_part(stored: &[u8], factory_bytes: usize) -> Tapped
    ensures { result ≡ tapped_of (tap_place stored.now) factory_bytes }
{
    match record_tap::tap_place(stored) {
        TapPlace::Nowhere => Tapped {
            refusal: REFUSAL_NOT_RECORD,
            source: TAP_NONE,
            offset: 0,
            length: 0,
        },
        TapPlace::Own { start, count } => Tapped {
            refusal: REFUSAL_NONE,
            source: TAP_RECORD,
            offset: start,
            length: count,
        },
        TapPlace::Factory => Tapped {
            refusal: REFUSAL_NONE,
            source: TAP_FACTORY,
            offset: 0,
            length: factory_bytes,
        },
    }
}
