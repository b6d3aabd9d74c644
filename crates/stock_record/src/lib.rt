// The count of one stored record: what it adds to each of the eleven numbers of a stock count.
// The numbers count records, cards and slots; a record's length is in bytes.
// Proved: the count is what the table says of READ's answer, for any bytes.
#![tactic(auto)]

ghost use Rattle.std.specs.Prelude.{◌≡◌, ◌&&◌, cond, eqb};
ghost use Rattle.record_rules.specs.Answers.{read_answer};
ghost use Rattle.stock_rules.specs.Rows.{used_slots, one_if, one_of};

use card::{Card, KEY_EXTENDED, KEY_NONE, KEY_SINGLE, Slot};
use refusals::REFUSAL_NONE;
use sound::Answer;
use stock_rules::NUMBERS;

// The flag of a slot that is used.
const FILLED: u8 = 1;

// The number if the flag is set, else 0.
fn only(flag: bool, n: u32) -> u32
    ensures { result ≡ cond flag n 0 }
{
    if flag {
        return n;
    }
    0
}

// 1 if the flag is set and the byte has this value, else 0.
fn one_at(flag: bool, byte: u8, value: u8) -> u32
    ensures { result ≡ one_if (flag && eqb byte value) }
{
    let same = byte == value;
    only(flag & same, 1)
}

// How many slots are used.
#[tactic(auto, using(crate::proofs::UsedFacts::counted_used))]
fn used_slots(slots: [Slot; Card::SLOTS]) -> u32
    ensures { result ≡ used_slots slots }
{
    slots.iter().filter(|slot| slot.filled == FILLED).count() as u32
}

// The count of the record for which READ gave this answer.
fn of_answer(answer: Answer) -> [u32; NUMBERS]
    ensures { result ≡ one_of answer }
{
    let card = answer.card;
    let pairing = card.pairing;
    let slots = pairing.slots;
    let kind = card.keys.kind;
    let tries = card.pins.pin_tries;
    let used = used_slots(slots);
    let taken = answer.refusal == REFUSAL_NONE;
    let fresh = card.initialised == 0;
    let initialised = taken & !fresh;
    [
        only(taken, 1),
        only(!taken, 1),
        only(taken & fresh, 1),
        one_at(initialised, kind, KEY_NONE),
        one_at(initialised, kind, KEY_SINGLE),
        one_at(initialised, kind, KEY_EXTENDED),
        one_at(initialised, tries, 0),
        one_at(initialised, tries, 1),
        one_at(initialised, tries, 2),
        one_at(initialised, tries, 3),
        only(initialised, used),
    ]
}

// The count of one record, whatever its bytes: what READ refuses is counted as refused.
pub fn of_record(s: &[u8]) -> [u32; NUMBERS]
    ensures { result ≡ one_of (read_answer s.now) }
{
    of_answer(record_read::read(s))
}
