// Job sheets (RULES 6.21): what a plan of opened commands does on a card, which plans are accepted, and when the planner refuses.
// Every length and count of bytes is in bytes; a plan's limit is in commands. The definitions are in specs/, the types and constants here.
// Proved: whether a plan is accepted does not depend on PIN and PUK, nor on anything else but the flag of INIT, the PIN's tries,
// verification and the keys.
#![tactic(auto)]

use card::{PATH_MAX_BYTES, PIN_BYTES};

// The most commands that a plan has.
pub const PLAN_MAX_COMMANDS: usize = 3;

// The head of each command of a plan: 80 INS P1 P2 and the number of its data bytes.
pub const HEAD_BYTES: usize = 5;

// The longest plan that the planner makes: VERIFY with a PIN, and two commands with a path each.
pub const PLAN_MAX_BYTES: usize = HEAD_BYTES
    + PIN_BYTES
    + HEAD_BYTES
    + PATH_MAX_BYTES
    + HEAD_BYTES
    + PATH_MAX_BYTES;

// What the check answers: the refusal's number, or 0 for none, and whether the plan is accepted.
#[derive(Clone, Copy)]
pub struct Checked {
    pub refusal: u8,
    pub accepted: bool,
}

// What the planner answers: the refusal's number, or 0 for none, how many bytes the plan has, and the plan with zeros after it.
#[derive(Clone, Copy)]
pub struct Planned {
    pub refusal: u8,
    pub count: usize,
    pub bytes: [u8; PLAN_MAX_BYTES],
}
