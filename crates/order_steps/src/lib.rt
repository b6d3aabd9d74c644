// What the order of checks (RULES 5) takes from the card: step 1, by the command's first bytes, and what an instruction gives up.
// Every length is in bytes.
// Proved: each answer is the rulebook's, for every command, however short, and every card.
#![tactic(auto)]

ghost use Rattle.std.specs.Prelude.{◌≡◌};
ghost use Rattle.card.specs.State.{forgotten};
ghost use Rattle.rules.specs.Steps.{step1, begins, dropping, forgetting, begun, failed};

use card::Card;
use rules::{CLASS, INS_MUTUAL, INS_PAIR, Loss};

// P1 of PAIR's final step.
const P1_FINAL: u8 = 0x01;

// The card without a pending pairing.
fn forget(mut card: Card) -> Card
    ensures { result ≡ forgotten card }
{
    let mut pairing = card.pairing;
    pairing.pending = 0;
    pairing.expected = [0; card::KEY_BYTES];
    card.pairing = pairing;
    card
}

// Whether the command begins with the class 80 and this instruction byte.
fn begins_with(cmd: &[u8], ins: u8) -> bool
    ensures { result ≡ begins ins cmd.now }
{
    if cmd.len() < 2 {
        let begun = false;
        return begun;
    }
    let class = cmd[0] == CLASS;
    let instruction = cmd[1] == ins;
    class & instruction
}

fn drop_channel(card: Card, cmd: &[u8]) -> Card
    ensures { result ≡ dropping cmd.now card }
{
    let half_open = card.channel.stage == card::STAGE_OPENED;
    let other = !begins_with(cmd, INS_MUTUAL);
    if half_open & other {
        return card.close();
    }
    card
}

fn drop_pending(card: Card, cmd: &[u8]) -> Card
    ensures { result ≡ forgetting cmd.now card }
{
    if begins_with(cmd, INS_PAIR) {
        return card;
    }
    forget(card)
}

// Step 1, by the first two bytes: in stage 1 anything but 80 11 drops the channel; anything but 80 12 forgets a pending pairing.
pub fn step_1(card: Card, cmd: &[u8]) -> Card
    ensures { result ≡ step1 cmd.now card }
{
    let dropped = drop_channel(card, cmd);
    drop_pending(dropped, cmd)
}

// Step 5: OPEN closes any channel before steps 5 and 6.
pub fn begun(loss: Loss, card: Card) -> Card
    ensures { result ≡ begun loss card }
{
    match loss {
        Loss::Channel => card.close(),
        Loss::HalfOpen | Loss::Pending | Loss::Nothing => card,
    }
}

// What an error at step 5 or 6 leaves: MUTUAL in stage 1 gives the channel up; PAIR with P1 01 ends the pending pairing.
pub fn failed(loss: Loss, p1: u8, card: Card) -> Card
    ensures { result ≡ failed loss p1 card }
{
    match loss {
        Loss::Channel => card,
        Loss::HalfOpen => {
            if card.channel.stage == card::STAGE_AUTHENTICATED {
                card
            } else {
                card.close()
            }
        }
        Loss::Pending => { if p1 == P1_FINAL { forget(card) } else { card } }
        Loss::Nothing => card,
    }
}
