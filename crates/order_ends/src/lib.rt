// The end of the order of checks (RULES 5): how a route ends, and steps 5 and 6, where each command that is named and opened arrives.
// Every length and the fault offset are in bytes.
// Proved: the way means what the rulebook decides from step 5 on, for every card and all data.
#![tactic(auto)]

ghost use Rattle.std.specs.Prelude.{◌≡◌, not, ◌≤◌, length};
ghost use Rattle.command_table.specs.Fits.{PathsFit};
ghost use Rattle.rules.specs.Rows.{is_plain};
ghost use Rattle.rules.specs.Steps.{step6};
ghost use Rattle.order_ends.specs.Routes.{Routes, ends_with, from_step5};

use card::Card;
use rules::{Command, Instruction, Supply};

// A command whose checks all hold: whether its answer goes over the channel, how many bytes of data it has, the supply that it reads,
// and the card that the answer starts from.
#[derive(Clone, Copy)]
pub struct Going {
    pub over: bool,
    pub count: usize,
    pub command: Command,
    pub supply: Supply,
    pub card: Card,
}

// A command that a step ends: whether its answer goes over the channel, the status word, the fault offset, and the card that it leaves.
#[derive(Clone, Copy)]
pub struct Ended {
    pub over: bool,
    pub status: u16,
    pub fault_offset: usize,
    pub card: Card,
}

// Where the order of checks leads.
pub type Way = Result<Going, Ended>;

// The end of a command with a status word before step 6, where no fault is told.
pub fn ends(over: bool, card: Card, status: u16) -> Ended
    ensures { result ≡ ends_with over card status }
{
    Ended {
        over,
        status,
        fault_offset: rules::NO_FAULT,
        card,
    }
}

// Step 5: P1 and P2. OPEN closes any channel before it.
pub fn step_5(i: Instruction, over: bool, card: Card, cmd: &[u8], data: &[u8]) -> Way
    requires { (4 ≤ length cmd.now) × (over ≡ not (is_plain i)) × PathsFit card.keys }
    ensures { Routes (from_step5 i cmd.now card «data».now) result «data».now }
{
    let p1 = cmd[2];
    let loss = order_rows::loss_of(i);
    let begun = order_steps::begun(loss, card);
    let lost = order_steps::failed(loss, p1, begun);
    let Some(k) = order_choices::choose(i, p1, cmd[3]) else {
        return Err(ends(over, lost, rules::WRONG_PARAMETERS));
    };
    step_6(over, begun, lost, k, data)
}

// Step 6: the command's checks. Where they hold, the command reads its supply; an error leaves the card `lost` and tells the fault offset.
fn step_6(over: bool, card: Card, lost: Card, k: Command, data: &[u8]) -> Way
    requires { PathsFit card.keys }
    ensures { Routes (step6 (record { command = k; data' = «data».now; card = card; lost = lost; over = over })) result
        «data».now }
{
    match command_table::judge(card, k, data) {
        Ok(supply) => Ok(Going {
            over,
            count: data.len(),
            command: k,
            supply,
            card,
        }),
        Err(status) => Err(Ended {
            over,
            status,
            fault_offset: command_table::fault_at(k, data, status),
            card: lost,
        }),
    }
}
