// The order of checks for a command (RULES 5), steps 1 to 4 and then those of order_opens and order_ends, walked once for ASK and ANSWER alike.
// Every length, Lc included, and the fault offset are in bytes.
// Proved: for every card and every command, however short, the way means what the rulebook decides.
#![tactic(auto)]

ghost use Rattle.std.specs.Prelude.{◌≡◌, ◌≤◌, length};
ghost use Rattle.command_table.specs.Fits.{PathsFit};
ghost use Rattle.rules.specs.Steps.{decide};
ghost use Rattle.order_ends.specs.Routes.{RoutesIn, from_step2, from_step3, from_step4};

use card::Card;
use order_ends::Way;
use rules::{Instruction, Unnamed};

// The most data that a command carries, in bytes.
pub const DATA_MAX_BYTES: usize = 255;

// Steps 1 to 6. The command's data is left at the start of `plain`.
pub fn route(card: Card, cmd: &[u8], plain: &mut [u8]) -> Way
    requires { (length plain.old ≡ 255) × PathsFit card.keys }
    ensures { RoutesIn (decide card cmd.now) result plain.new }
{
    let next = order_steps::step_1(card, cmd);
    step_2(next, cmd, plain)
}

// Step 2: the form.
fn step_2(card: Card, cmd: &[u8], plain: &mut [u8]) -> Way
    requires { (length plain.old ≡ 255) × PathsFit card.keys }
    ensures { RoutesIn (from_step2 cmd.now card) result plain.new }
{
    let Some(field) = order_form::find_data(cmd) else {
        return Err(order_ends::ends(false, card, rules::WRONG_LENGTH));
    };
    step_3(card, cmd, field, plain)
}

// Step 3: class and instruction.
fn step_3(card: Card, cmd: &[u8], field: &[u8], plain: &mut [u8]) -> Way
    requires { (4 ≤ length cmd.now) × (length field.now ≤ 255) × (length plain.old ≡ 255) × PathsFit card.keys }
    ensures { RoutesIn (from_step3 cmd.now card field.now) result plain.new }
{
    match order_rows::name(card.initialised != 0, cmd[0], cmd[1]) {
        Ok(i) => step_4(i, card, cmd, field, plain),
        Err(Unnamed::WrongClass) => Err(order_ends::ends(false, card, rules::UNKNOWN_CLASS)),
        Err(Unnamed::Unknown) => Err(order_ends::ends(false, card, rules::UNKNOWN_INSTRUCTION)),
    }
}

// Step 4: a plain command goes on with its data as it is; the others need the stage, and their data is opened.
fn step_4(i: Instruction, card: Card, cmd: &[u8], field: &[u8], plain: &mut [u8]) -> Way
    requires { (4 ≤ length cmd.now) × (length field.now ≤ 255) × (length plain.old ≡ 255) × PathsFit card.keys }
    ensures { RoutesIn (from_step4 i cmd.now card field.now) result plain.new }
{
    let stage = order_rows::stage_of(i);
    if stage == card::STAGE_CLOSED {
        octets_lent::put(plain, 0, field);
        return order_ends::step_5(i, false, card, cmd, field);
    }
    if card.channel.stage < stage {
        return Err(order_ends::ends(false, card, rules::CONDITIONS_NOT_MET));
    }
    order_opens::step_4_opens(i, card, cmd, field, plain)
}
