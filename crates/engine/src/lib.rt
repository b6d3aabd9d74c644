// The engine: ASK says which supply a command will read, ANSWER answers it.
// Every length, room, count and offset is in bytes.
// Proved: refusal, kind, count, fault offset, next card and every byte of the buffer are the rulebook's, for any card, command, supply and buffer.
#![tactic(auto)]

ghost use Rattle.std.specs.Prelude.{length};
ghost use Rattle.rules.specs.Engine.{ask_out, answer_out};
ghost use Rattle.rules.specs.Reports.{AskDid, AnswerDid};

use card::Card;
use refusals::{ANSWER_ROOM_BYTES, ASK_ROOM_BYTES, REFUSAL_ROOM, REFUSAL_UNSOUND};
use rules::{Answered, Asked};

// ANSWER (RULES 3.6): response data then status word from the buffer's start, the fault offset, and the next card.
pub fn answer(card: Card, cmd: &[u8], supply: &[u8], buf: &mut [u8]) -> Answered
    ensures { AnswerDid (answer_out card cmd.now supply.now (length buf.old)) result
        buf.old buf.new }
{
    if sound::sound(card) {
        if buf.len() < ANSWER_ROOM_BYTES {
            return engine_reports::refused(card, REFUSAL_ROOM);
        }
        return engine_sound::answer_sound(card, cmd, supply, buf);
    }
    engine_reports::refused(card, REFUSAL_UNSOUND)
}

// ASK (RULES 3.5): which supply ANSWER will read, with the command's data for it from the buffer's start.
pub fn ask(card: Card, cmd: &[u8], buf: &mut [u8]) -> Asked
    ensures { AskDid (ask_out card cmd.now (length buf.old)) result buf.old buf.new }
{
    if sound::sound(card) {
        if buf.len() < ASK_ROOM_BYTES {
            return engine_reports::ask_refused(REFUSAL_ROOM);
        }
        return engine_sound::ask_sound(card, cmd, buf);
    }
    engine_reports::ask_refused(REFUSAL_UNSOUND)
}
