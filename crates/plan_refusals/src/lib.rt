// The planner of job sheets (RULES 6.21): which refusal it gives, if any.
// Every length is in bytes.
// Proved: the number is the definition's, for every card, PIN and paths; nothing is required.
#![tactic(auto)]

ghost use Rattle.std.specs.Prelude.{◌≡◌};
ghost use Rattle.plan_rules.specs.Plan.{can_plan, plan_refusal};
ghost use Rattle.plan_rules.specs.Known.{bare};

use card::{Card, KEY_EXTENDED, Keys, Pins};
use command_paths::is_path;
use plan_steps::is_pin;
use refusals::{REFUSAL_NO_PLAN, REFUSAL_NONE, REFUSAL_UNSOUND};
use sound::sound;

// Whether a plan can be made.
fn can_plan(flag: u8, pins: Pins, keys: Keys, pin: &[u8], current: &[u8], pinless: &[u8]) -> bool
    ensures { result ≡ can_plan (bare flag pins keys) pin.now current.now pinless.now }
{
    let initialised = flag != 0;
    let tried = pins.pin_tries != 0;
    let extended = keys.kind == KEY_EXTENDED;
    let digits = is_pin(pin);
    let derived = is_path(current);
    let set = is_path(pinless);
    initialised & tried & extended & digits & derived & set
}

// The number of the planner's refusal, or of none.
pub fn refusal_of(card: Card, pin: &[u8], current: &[u8], pinless: &[u8]) -> u8
    ensures { result ≡ plan_refusal card pin.now current.now pinless.now }
{
    if !sound(card) {
        return REFUSAL_UNSOUND;
    }
    let flag = card.initialised;
    if !can_plan(flag, card.pins, card.keys, pin, current, pinless) {
        return REFUSAL_NO_PLAN;
    }
    REFUSAL_NONE
}
