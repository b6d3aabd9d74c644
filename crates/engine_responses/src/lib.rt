// Writing a response: the response data and the status word, in the clear or sealed together, and the card that is left; no fault offset is told.
// Every length, room and count is in bytes.
// Proved: the count, the fault offset, the next card and every byte of the buffer are the rulebook's, for any reply that fits and any buffer
// with room.
#![tactic(auto)]

ghost use Rattle.std.specs.Prelude.{◌≡◌, ◌≤◌, length};
ghost use Rattle.rules.specs.Channel.{plainly, sealed, tell};
ghost use Rattle.rules.specs.Engine.{answered};
ghost use Rattle.rules.specs.Code.{reply_with};
ghost use Rattle.rules.specs.Reports.{AnswerDid};

use card::Card;
use rules::{Answered, NO_FAULT};

// An answer in the clear: the response data, then the status word.
fn tell_plainly(card: Card, status: u16, response: &[u8], buf: &mut [u8]) -> Answered
    requires { (length response.now ≤ 221) × (258 ≤ length buf.old) }
    ensures { AnswerDid (answered (plainly (reply_with status response.now card))) result buf.old buf.new }
{
    let n = response.len();
    octets_lent::put(buf, 0, response);
    octets::put(buf, n, &status.to_be_bytes());
    Answered {
        refusal: refusals::REFUSAL_NONE,
        count: n + 2,
        fault_offset: NO_FAULT,
        card,
    }
}

// An answer in stage 2: the response data and the status word sealed together.
fn tell_sealed(card: Card, status: u16, response: &[u8], buf: &mut [u8]) -> Answered
    requires { (length response.now ≤ 221) × (258 ≤ length buf.old) }
    ensures { AnswerDid (answered (sealed (reply_with status response.now card))) result buf.old buf.new }
{
    let [sw1, sw2] = status.to_be_bytes();
    let session = channel_card::session_of(card.channel);
    let told = channel_seal::seal_response(session, response, sw1, sw2, buf);
    let count = told.count;
    let after = told.session;
    let mac = after.iv;
    Answered {
        refusal: refusals::REFUSAL_NONE,
        count,
        fault_offset: NO_FAULT,
        card: channel_card::with_mac(card, mac),
    }
}

// An answer as it goes out.
pub fn tell(over: bool, card: Card, status: u16, response: &[u8], buf: &mut [u8]) -> Answered
    requires { (length response.now ≤ 221) × (258 ≤ length buf.old) }
    ensures { AnswerDid (answered (tell over (reply_with status response.now card))) result buf.old buf.new }
{
    let open = card.channel.stage == card::STAGE_AUTHENTICATED;
    if over & open {
        return tell_sealed(card, status, response, buf);
    }
    tell_plainly(card, status, response, buf)
}
