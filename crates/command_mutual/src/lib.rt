// MUTUAL (RULES 6.7): the verdict of its checks, and its reply where they hold.
// Every length and count is in bytes.
// Proved: the verdict, the reply and every byte of the buffer are what the command's rule gives, for every card, data and supply.
#![tactic(auto)]

ghost use Rattle.std.specs.Prelude.{◌≡◌, true, ◌≤◌, length};
ghost use Rattle.rules.specs.Words.{verdict};
ghost use Rattle.rules.specs.Code.{Replies};
ghost use Rattle.rules.specs.Supplies.{suits, mutual_supply};
ghost use Rattle.rules.specs.Commands.{mutual_checks, in_stage2, mutual_reply};

use card::{Card, Channel, STAGE_AUTHENTICATED, STAGE_OPENED};
use command_parts::{must, reads, replied, with_channel};
use octets::put;
use rules::{CONDITIONS_NOT_MET, Replied, SECURITY_NOT_MET, Verdict};

// MUTUAL's data.
const CHALLENGE_BYTES: usize = 32;

// MUTUAL's supply: the random that it answers.
const MUTUAL_SUPPLY: u8 = 3;

const RANDOM_BYTES: usize = 32;

#[tactic(auto, unfolding(rules::specs::Commands::mutual_checks))]
pub fn mutual_verdict(stage: u8, data: &[u8]) -> Verdict
    ensures { result ≡ verdict mutual_supply (mutual_checks stage «data».now) }
{
    must(stage == STAGE_OPENED, CONDITIONS_NOT_MET)?;
    must(data.len() == CHALLENGE_BYTES, SECURITY_NOT_MET)?;
    reads(MUTUAL_SUPPLY, RANDOM_BYTES, false)
}

fn in_stage_2(channel: Channel) -> Channel
    ensures { result ≡ in_stage2 channel }
{
    let mut authenticated = channel;
    authenticated.stage = STAGE_AUTHENTICATED;
    authenticated
}

pub fn mutual(card: Card, supply: &[u8], out: &mut [u8]) -> Replied
    requires { (suits mutual_supply supply.now ≡ true) × (221 ≤ length out.old) }
    ensures { Replies (mutual_reply card supply.now) result out.old out.new }
{
    let channel = card.channel;
    let authenticated = in_stage_2(channel);
    put(out, 0, supply);
    replied(with_channel(card, authenticated), supply.len())
}
