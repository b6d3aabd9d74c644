// The planner of job sheets (RULES 6.21): from a card, a PIN and the two paths asked for, a plan with no command that is not needed.
// Every length and place is in bytes.
// Proved: it refuses exactly where the definition does; otherwise the check accepts the plan, for every card, PIN and paths. Nothing is
// required.
#![tactic(auto)]

ghost use Rattle.std.specs.Prelude.{◌≡◌, ◌+◌, ◌≤◌, length};
ghost use Rattle.template_rules.specs.Writing.{Wrote};
ghost use Rattle.plan_rules.specs.Plan.{Plans};
ghost use Rattle.plan_make.specs.Make.{wanted, needs_of, plan_of};

use card::{Card, Keys, Pins};
use plan_refusals::refusal_of;
use plan_rules::{HEAD_BYTES, PLAN_MAX_BYTES, Planned};
use plan_steps::is_at;
use refusals::REFUSAL_NONE;
use rules::{CLASS, INS_DERIVE, INS_SET_PINLESS, INS_VERIFY};

// Which of the three commands a plan has.
#[derive(Clone, Copy)]
pub struct Needs {
    pub verify: bool,
    pub set: bool,
    pub derive: bool,
}

// What is needed: the command of each path that is not yet as asked, and VERIFY first where one of them asks for it.
fn needed(pins: Pins, keys: Keys, current: &[u8], pinless: &[u8]) -> Needs
    ensures { result ≡ needs_of pins keys current.now pinless.now }
{
    let old = keys.pinless;
    let verified = pins.verified != 0;
    let set_before = old.len != 0;
    let set = !is_at(old, pinless);
    let derive = !is_at(keys.current, current);
    let verify = !verified & (set | (derive & !set_before));
    Needs {
        verify,
        set,
        derive,
    }
}

// Writes a command from byte `at` on where it is wanted, and gives the place after it.
fn put_command(out: &mut [u8], at: usize, want: bool, ins: u8, data: &[u8]) -> usize
    requires { (at + (5 + length «data».now) ≤ length out.old) × (length «data».now ≤ 40) }
    ensures { Wrote (wanted want ins «data».now) at result out.old out.new }
{
    if !want {
        return at;
    }
    let count = data.len() as u8;
    let head = [CLASS, ins, 0, 0, count];
    let from = at + HEAD_BYTES;
    octets::put(out, at, &head);
    octets::put(out, from, data);
    from + data.len()
}

// Writes the plan from the buffer's start, and gives its length.
fn put_plan(out: &mut [u8], needs: Needs, pin: &[u8], current: &[u8], pinless: &[u8]) -> usize
    requires { (length out.old ≡ 101) × (length pin.now ≡ 6) × (length current.now ≤ 40) × (length pinless.now ≤ 40) }
    ensures { Wrote (plan_of needs pin.now current.now pinless.now) 0 result out.old out.new }
{
    let first = put_command(out, 0, needs.verify, INS_VERIFY, pin);
    let second = put_command(out, first, needs.set, INS_SET_PINLESS, pinless);
    put_command(out, second, needs.derive, INS_DERIVE, current)
}

// PLAN: refusal 1 where the card is not sound, 12 where no plan can be made, or the plan.
pub fn plan(card: Card, pin: &[u8], current: &[u8], pinless: &[u8]) -> Planned
    ensures { Plans card pin.now current.now pinless.now result }
{
    let mut bytes = [0; PLAN_MAX_BYTES];
    let refusal = refusal_of(card, pin, current, pinless);
    if refusal != REFUSAL_NONE {
        return Planned {
            refusal,
            count: 0,
            bytes,
        };
    }
    let needs = needed(card.pins, card.keys, current, pinless);
    let count = put_plan(&mut bytes, needs, pin, current, pinless);
    Planned {
        refusal,
        count,
        bytes,
    }
}
