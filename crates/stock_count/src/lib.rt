// Stock counts: the count of no records, one record more, and the sum of two counts.
// The numbers count records, cards and slots; a record's length is in bytes.
// Proved: each answer is what its definition gives, for every count, whatever its numbers: 1 for a count that is not sound, 13 where more than
// 65,535 records would be fed, and then the first count is handed back.
#![tactic(auto)]

ghost use Rattle.std.specs.Prelude.{◌≡◌, [], ℕ, ◌+◌, ◌<◌, get_or};
ghost use Rattle.stock_rules.specs.Rows.{count_of};
ghost use Rattle.stock_rules.specs.Counts.{plus, not_counted, add_record, add_counts};

use refusals::{REFUSAL_COUNT_FULL, REFUSAL_NONE, REFUSAL_UNSOUND};
use stock_rules::{Counted, NUMBERS};
use stock_sound::{FED_MAX, fed_of, sound};

// Two counts added number by number, where no number passes 32 bits.
fn plus(c: [u32; NUMBERS], d: [u32; NUMBERS]) -> [u32; NUMBERS]
    requires { (i : ℕ) → get_or c i 0 + get_or d i 0 < 4294967296 }
    ensures { result ≡ plus c d }
{
    let mut sum = c;
    for i in 0..NUMBERS {
        sum[i] = c[i] + d[i];
    }
    sum
}

// The count of no records.
pub fn none() -> [u32; NUMBERS]
    ensures { result ≡ count_of [] }
{
    [0; NUMBERS]
}

// A refusal, which hands a count back.
fn refused(refusal: u8, c: [u32; NUMBERS]) -> Counted
    ensures { result ≡ not_counted refusal c }
{
    Counted { refusal, count: c }
}

// The sum of two counts.
pub fn add_counts(c: [u32; NUMBERS], d: [u32; NUMBERS]) -> Counted
    ensures { result ≡ add_counts c d }
{
    let both = sound(c) & sound(d);
    if !both {
        return refused(REFUSAL_UNSOUND, c);
    }
    if FED_MAX < fed_of(c) + fed_of(d) {
        return refused(REFUSAL_COUNT_FULL, c);
    }
    let sum = plus(c, d);
    Counted {
        refusal: REFUSAL_NONE,
        count: sum,
    }
}

// One record more.
pub fn add_record(c: [u32; NUMBERS], s: &[u8]) -> Counted
    ensures { result ≡ add_record c s.now }
{
    add_counts(c, stock_record::of_record(s))
}
