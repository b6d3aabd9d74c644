// ASK and ANSWER of a sound card, with room enough: the route is walked, and a supply that is read must have its form.
// Every length, room, count and offset is in bytes.
// Proved: refusal, kind, count, fault offset, next card and every byte of the buffer are what the rulebook's decision gives.
#![tactic(auto)]

ghost use Rattle.std.specs.Prelude.{◌≡◌, true, ◌≤◌, length};
ghost use Rattle.rules.specs.Words.{Hold};
ghost use Rattle.rules.specs.Supplies.{suits};
ghost use Rattle.rules.specs.Channel.{tell};
ghost use Rattle.rules.specs.Steps.{checks_of, supply_of, reply_of, decide};
ghost use Rattle.rules.specs.Engine.{asked, answered, with_supply};
ghost use Rattle.rules.specs.Reports.{AskDid, AnswerDid};
ghost use Rattle.command_table.specs.Fits.{PathsFit};

use card::Card;
use refusals::{REFUSAL_NONE, REFUSAL_SUPPLY};
use rules::{Answered, Asked, Command};

// Past the checks and the supply's form: the command's reply, as it goes out.
fn perform(
    over: bool,
    card: Card,
    k: Command,
    data: &[u8],
    supply: &[u8],
    buf: &mut [u8],
) -> Answered
    requires hold { Hold (checks_of k card «data».now) × (suits (supply_of k) supply.now ≡ true) }
    requires paths_fit { PathsFit card.keys × (258 ≤ length buf.old) }
    ensures { AnswerDid (answered (tell over (reply_of k card «data».now supply.now))) result
        buf.old buf.new }
{
    let mut out = [0u8; rules::RESPONSE_MAX_BYTES];
    let done = command_table::act(card, k, data, supply, &mut out);
    let count = done.count;
    let next = done.card;
    engine_responses::tell(over, next, done.status, &out[0..count], buf)
}

// ANSWER for a sound card, with room enough: a supply that is read must have its form.
pub fn answer_sound(card: Card, cmd: &[u8], supply: &[u8], buf: &mut [u8]) -> Answered
    requires { PathsFit card.keys × (258 ≤ length buf.old) }
    ensures { AnswerDid (with_supply card (decide card cmd.now) supply.now) result buf.old buf.new }
{
    let mut plain = [0u8; order::DATA_MAX_BYTES];
    match order::route(card, cmd, &mut plain) {
        Ok(going) => {
            if !engine_reports::supply_suits(going.supply, supply) {
                return engine_reports::refused(card, REFUSAL_SUPPLY);
            }
            let data = &plain[..going.count];
            perform(going.over, going.card, going.command, data, supply, buf)
        }
        Err(ended) => {
            let told = engine_responses::tell(ended.over, ended.card, ended.status, &[], buf);
            engine_reports::with_fault(told, ended.fault_offset)
        }
    }
}

// ASK for a sound card, with room enough: nothing is written where no supply is read.
pub fn ask_sound(card: Card, cmd: &[u8], buf: &mut [u8]) -> Asked
    requires { PathsFit card.keys × (255 ≤ length buf.old) }
    ensures { AskDid (asked (decide card cmd.now)) result buf.old buf.new }
{
    let mut plain = [0u8; order::DATA_MAX_BYTES];
    let Ok(going) = order::route(card, cmd, &mut plain) else {
        return engine_reports::ask_refused(REFUSAL_NONE);
    };
    let kind = going.supply.kind;
    if kind == 0 {
        return engine_reports::ask_refused(REFUSAL_NONE);
    }
    octets::put(buf, 0, &plain[..going.count]);
    Asked {
        refusal: REFUSAL_NONE,
        kind,
        count: going.count,
    }
}
