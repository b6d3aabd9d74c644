// The report of a stock count, written from the buffer's start: a field for each of the eleven numbers.
// Every length, place and room is in bytes.
// Proved: the bytes written are the report of the count, their number is given, and no other byte changes; a count that is not sound is
// refused with 1, a buffer under 77 bytes with 2, and then nothing is written.
#![tactic(auto)]

ghost use Rattle.std.specs.Prelude.{◌≡◌, ◌≤◌, length};
ghost use Rattle.record_fields.specs.Put.{Put};
ghost use Rattle.stock_rules.specs.Report.{bytes_of, report_fields, report_room};
ghost use Rattle.stock_report.specs.Reported.{Reported};

use record_fields::put_field;
use record_write::Written;
use refusals::{REFUSAL_NONE, REFUSAL_ROOM, REFUSAL_UNSOUND};
use stock_rules::{NUMBER_BYTES, NUMBERS, REPORT_ROOM_BYTES};

// The tag of the first number; the tags of the others count up from it.
const FIRST_TAG: u8 = 0x40;

// A number as four bytes, the high byte first.
fn bytes_of(n: u32) -> [u8; NUMBER_BYTES]
    ensures { result ≡ bytes_of n }
{
    n.to_be_bytes()
}

// Writes the report of a count, and gives its length.
fn put_report(buf: &mut [u8], c: [u32; NUMBERS]) -> usize
    requires { report_room ≤ length buf.old }
    ensures { Put (report_fields c) 0 buf.old result buf.new }
{
    let mut at = 0;
    let mut tag = FIRST_TAG;
    for n in c {
        let number = bytes_of(n);
        at = put_field(buf, at, tag, &number);
        tag += 1;
    }
    at
}

// The report of a count.
pub fn report(c: [u32; NUMBERS], buf: &mut [u8]) -> Written
    ensures { Reported c result buf.old buf.new }
{
    if !stock_sound::sound(c) {
        return Written {
            refusal: REFUSAL_UNSOUND,
            count: 0,
        };
    }
    if buf.len() < REPORT_ROOM_BYTES {
        return Written {
            refusal: REFUSAL_ROOM,
            count: 0,
        };
    }
    let count = put_report(buf, c);
    Written {
        refusal: REFUSAL_NONE,
        count,
    }
}
