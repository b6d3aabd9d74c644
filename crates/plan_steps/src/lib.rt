// The steps of the check of job sheets (RULES 6.21): VERIFY, SET PIN-LESS PATH and DERIVE on the parts of a card that a plan can change,
// and whether a path is the one asked for. Every length is in bytes.
// Proved: each step is what the command's own rule gives, for all parts of a card and all data; nothing is required.
#![tactic(auto)]

ghost use Rattle.std.specs.Prelude.{true, ◌≡◌};
ghost use Rattle.octets.specs.Bytes.{same_bytes};
ghost use Rattle.card.specs.State.{path_bytes};
ghost use Rattle.rules.specs.declared.Command.TheVariants as command;
ghost use Rattle.plan_rules.specs.Plan.{reads, taken_as_right, command_at, after, after_that};
ghost use Rattle.plan_steps.specs.Steps.{Leads, InUse};

use card::{Keys, PATH_MAX_BYTES, PIN_BYTES, Path, Pins, wide};
use command_paths::{derive_verdict, path_of, pinless_verdict, with_current, with_pinless};
use command_verify::{pin_right, verify_verdict};
use rules::{INS_DERIVE, INS_SET_PINLESS, INS_VERIFY, Verdict};

// What a command of a plan that gives 9000 leaves of the parts of a card that a plan can change.
#[derive(Clone, Copy)]
pub struct Step {
    pub pins: Pins,
    pub keys: Keys,
}

// ---- the three commands
// Whether all checks hold.
fn holds(verdict: Verdict) -> bool
    ensures { result ≡ reads verdict }
{
    verdict.is_ok()
}

// Whether the bytes are six digits.
pub fn is_pin(data: &[u8]) -> bool
    ensures { result ≡ taken_as_right «data».now }
{
    let whole = data.len() == PIN_BYTES;
    let digits = sound_bytes::digits(data);
    whole & digits
}

fn after_verify(pins: Pins, keys: Keys, data: &[u8]) -> Option<Step>
    ensures { Leads (λ c. after command.Verify c «data».now) pins keys result }
{
    let tried = holds(verify_verdict(pins));
    let right = is_pin(data);
    if tried & right {
        Some(Step {
            pins: pin_right(pins),
            keys,
        })
    } else {
        None
    }
}

fn after_pinless(pins: Pins, keys: Keys, data: &[u8]) -> Option<Step>
    ensures { Leads (λ c. after command.SetPinless c «data».now) pins keys result }
{
    if !holds(pinless_verdict(pins, data)) {
        return None;
    }
    Some(Step {
        pins,
        keys: with_pinless(keys, path_of(data)),
    })
}

fn after_derive(pins: Pins, keys: Keys, data: &[u8]) -> Option<Step>
    ensures { Leads (λ c. after command.Derive c «data».now) pins keys result }
{
    if !holds(derive_verdict(pins, keys, data)) {
        return None;
    }
    Some(Step {
        pins,
        keys: with_current(keys, path_of(data)),
    })
}

// The command of an instruction byte, where class, P1 and P2 are right on an initialised card.
pub fn after_ins(ins: u8, pins: Pins, keys: Keys, data: &[u8]) -> Option<Step>
    ensures { Leads (λ c. after_that c «data».now (command_at true 0x80 ins 0 0)) pins keys result }
{
    match ins {
        INS_VERIFY => after_verify(pins, keys, data),
        INS_SET_PINLESS => after_pinless(pins, keys, data),
        INS_DERIVE => after_derive(pins, keys, data),
        _ => None,
    }
}

// ---- the paths
// How many bytes of a path's room are in use.
fn in_use(len: u8) -> usize
    ensures { InUse len result }
{
    let used = wide(len);
    if used <= PATH_MAX_BYTES {
        return used;
    }
    PATH_MAX_BYTES
}

// Whether a path is the one asked for.
pub fn is_at(path: Path, asked: &[u8]) -> bool
    ensures { result ≡ same_bytes (path_bytes path) asked.now }
{
    let bytes = path.bytes;
    let end = in_use(path.len);
    octets::same(&bytes[..end], asked)
}
