// The stock count: how many of the stored records fed were read, and what the cards in them hold, in eleven numbers.
// The numbers count records, cards and slots; every length and room is in bytes. The definitions are in specs/: the table of what is
// counted, the count of a list of records, which counts are sound, one record more, the sum of two counts, and the report.
// Proved: feeding records one at a time gives the count of the list, and the sum of the counts of two batches is the count of both.
#![tactic(auto)]

use record_rules::HEAD_BYTES;

// How many numbers a count has.
pub const NUMBERS: usize = 11;

// A number in the report, in bytes.
pub const NUMBER_BYTES: usize = 4;

// The room that the report asks of a buffer, in bytes: a field for each number.
pub const REPORT_ROOM_BYTES: usize = NUMBERS * (HEAD_BYTES + NUMBER_BYTES);

// What a call that gives a count answers: the refusal's number, or 0 for none, and the count.
// A number beside the count, and no Result: `add_counts` promises the first count on a refusal too, and the library hands both on to C.
#[derive(Clone, Copy)]
pub struct Counted {
    pub refusal: u8,
    pub count: [u32; NUMBERS],
}
