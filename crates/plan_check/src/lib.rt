// The check of job sheets (RULES 6.21): whether the commands of a plan, one after the other on a card, all give 9000 and leave both paths as
// asked. Every length and place is in bytes; a plan's limit is in commands.
// Proved: the answer is the definition's, for every card, every plan and all asked paths; nothing is required. PIN and PUK are read for
// soundness alone.
#![tactic(auto)]

ghost use Rattle.std.specs.Prelude.{not, ◌≡◌, leb, length};
ghost use Rattle.card.specs.Slots.{is_zero};
ghost use Rattle.plan_rules.specs.Plan.{first_bytes, after_first, run_plan, accepts, check_answer};
ghost use Rattle.plan_rules.specs.Known.{bare, is_head};
ghost use Rattle.plan_steps.specs.Steps.{stepped};

use card::{Card, Keys, Pins, wide};
use plan_rules::{Checked, HEAD_BYTES, PLAN_MAX_COMMANDS};
use plan_steps::{Step, after_ins, is_at};
use refusals::{REFUSAL_NONE, REFUSAL_UNSOUND};
use rules::CLASS;
use sound::sound;

// Whether the card is initialised, the class is 80, and P1 and P2 are 00.
fn is_head(flag: u8, cla: u8, p1: u8, p2: u8) -> bool
    ensures { result ≡ is_head (not (is_zero flag)) cla p1 p2 }
{
    let initialised = flag != 0;
    let class = cla == CLASS;
    let p1_zero = p1 == 0;
    let p2_zero = p2 == 0;
    initialised & (class & (p1_zero & p2_zero))
}

// How many bytes the first command of a plan has, by the number of data bytes that its head names.
fn first_bytes(plan: &[u8]) -> usize
    ensures { result ≡ first_bytes plan.now }
{
    if plan.len() < HEAD_BYTES {
        return HEAD_BYTES;
    }
    HEAD_BYTES + wide(plan[4])
}

// The first command of a plan.
fn after_first(flag: u8, pins: Pins, keys: Keys, plan: &[u8]) -> Option<Step>
    ensures { after_first (bare flag pins keys) plan.now ≡ stepped flag result }
{
    let end = first_bytes(plan);
    if plan.len() < end {
        return None;
    }
    if !is_head(flag, plan[0], plan[2], plan[3]) {
        return None;
    }
    after_ins(plan[1], pins, keys, &plan[HEAD_BYTES..end])
}

// A plan of at most so many commands.
fn run(left: usize, flag: u8, pins: Pins, keys: Keys, plan: &[u8]) -> Option<Step>
    ensures { run_plan left (bare flag pins keys) plan.now ≡ stepped flag result }
{
    if plan.len() == 0 {
        return Some(Step { pins, keys });
    }
    if left == 0 {
        return None;
    }
    let step = after_first(flag, pins, keys, plan)?;
    let end = first_bytes(plan);
    run(left - 1, flag, step.pins, step.keys, &plan[end..])
}

// ---- the check
// Whether a plan is accepted, from the parts of the card that it looks at.
fn accepted(flag: u8, pins: Pins, keys: Keys, plan: &[u8], current: &[u8], pinless: &[u8]) -> bool
    ensures { result ≡ accepts (bare flag pins keys) plan.now current.now pinless.now }
{
    let Some(end) = run(PLAN_MAX_COMMANDS, flag, pins, keys, plan) else {
        return false;
    };
    let left = end.keys;
    let derived = is_at(left.current, current);
    let set = is_at(left.pinless, pinless);
    derived & set
}

// The check: refusal 1 where the card is not sound, or whether the plan is accepted.
pub fn check(card: Card, plan: &[u8], current: &[u8], pinless: &[u8]) -> Checked
    ensures { result ≡ check_answer card plan.now current.now pinless.now }
{
    if !sound(card) {
        return Checked {
            refusal: REFUSAL_UNSOUND,
            accepted: false,
        };
    }
    let flag = card.initialised;
    let yes = accepted(flag, card.pins, card.keys, plan, current, pinless);
    Checked {
        refusal: REFUSAL_NONE,
        accepted: yes,
    }
}
