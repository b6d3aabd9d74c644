// The tap read: which part of two lent slices, the stored record and the factory record, a phone reads that is held to the card.
// Every length and place is in bytes.
// Proved: the part is field 34's content inside the stored record, or the factory record whole exactly where none is stored; where READ
// refuses the record it is empty, and the call beside it answers 8.
#![tactic(auto)]

ghost use Rattle.std.specs.Prelude.{◌≡◌};
ghost use Rattle.record_rules.specs.Answers.{read_answer};
ghost use Rattle.record_tap.specs.Tap.{tap_place, tap_part, LentFrom};

use card::wide;
use refusals::REFUSAL_NONE;

// Where the tap record is: nowhere, since READ refuses the record; in the stored record, from a place on; or it is the factory record.
#[derive(Clone, Copy)]
pub enum TapPlace {
    Nowhere,
    Own { start: usize, count: usize },
    Factory,
}

// Where the tap record of a stored record is (RULES 10.7).
pub fn tap_place(record: &[u8]) -> TapPlace
    ensures { result ≡ tap_place «record».now }
{
    let told = record_read::read(record);
    if told.refusal != REFUSAL_NONE {
        return TapPlace::Nowhere;
    }
    let card = told.card;
    let tap = card.tap;
    let count = wide(tap.len);
    if count == 0 {
        return TapPlace::Factory;
    }
    let start = record.len() - count;
    TapPlace::Own { start, count }
}

// The call beside it: 8 where READ refuses the record, else 0.
pub fn tap_refusal(record: &[u8]) -> u8
    ensures { result ≡ (read_answer «record».now).refusal }
{
    let answer = record_read::read(record);
    answer.refusal
}

// The part itself (RULES 10.7).
pub fn tap_record<'a>(record: &'a [u8], factory: &'a [u8]) -> &'a [u8]
    ensures { (result.now ≡ tap_part «record».now factory.now)
        × LentFrom (tap_place «record».now) result.ref_ptr «record».entry.ref_ptr factory.entry.ref_ptr }
{
    match tap_place(record) {
        TapPlace::Nowhere => &factory[..0],
        TapPlace::Own { start, count } => {
            let end = start + count;
            &record[start..end]
        }
        TapPlace::Factory => factory,
    }
}
