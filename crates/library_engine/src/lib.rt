// ASK and ANSWER for callers in C and Rust (RULES 3.8; include/treadlewisp.h). The card is lent, and ANSWER changes it where it lies.
// Every length, room, count and offset is in bytes; a refusal 0 means that there was none.
// Proved: the promises of the operations by value, over the record at entry and at exit; refused, it is as it was.
#![tactic(auto)]

ghost use Rattle.std.specs.Prelude.{◌≡◌, length};
ghost use Rattle.rules.specs.Engine.{ask_out, answer_out};
ghost use Rattle.rules.specs.Reports.{AskDid, AnswerDid};
ghost use Rattle.library_calls.specs.Left.{answered_of};

use card::Card;
use library_calls::AnswerTold;
use rules::Asked;

// ASK: the card is only read.
#[unsafe(no_mangle)]
pub extern "C" fn tw_ask(card: &Card, cmd: &[u8], buf: &mut [u8]) -> Asked
    ensures { AskDid (ask_out card.now cmd.now (length buf.old)) result buf.old buf.new }
{
    let found = *card;
    engine::ask(found, cmd, buf)
}

// ANSWER.
#[unsafe(no_mangle)]
pub extern "C" fn tw_answer(
    card: &mut Card,
    cmd: &[u8],
    supply: &[u8],
    buf: &mut [u8],
) -> AnswerTold
    ensures { AnswerDid (answer_out card.old cmd.now supply.now (length buf.old))
        (answered_of result card.new) buf.old buf.new }
{
    let found = *card;
    let told = engine::answer(found, cmd, supply, buf);
    *card = told.card;
    AnswerTold {
        refusal: told.refusal,
        count: told.count,
        fault_offset: told.fault_offset,
    }
}
