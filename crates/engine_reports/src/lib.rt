// What ASK and ANSWER report beside a reply: a refusal, and the fault offset; and whether a supply has the form that is asked for.
// Every length, count and offset is in bytes.
// Proved: each report is the one named, with no fault told by a refusal, and the form is the rulebook's, for every supply.
#![tactic(auto)]

ghost use Rattle.std.specs.Prelude.{◌≡◌};
ghost use Rattle.rules.specs.Supplies.{suits};
ghost use Rattle.rules.specs.Rules.{no_fault};

use card::Card;
use rules::{Answered, Asked, NO_FAULT, Supply};

// A supply's flag byte: 00 no, 01 yes.
const FLAG_YES: u8 = 0x01;

pub fn ask_refused(refusal: u8) -> Asked
    ensures { result ≡ record { refusal = refusal; kind = 0; count = 0 } }
{
    Asked {
        refusal,
        kind: 0,
        count: 0,
    }
}

pub fn refused(card: Card, refusal: u8) -> Answered
    ensures { result ≡ record { refusal = refusal; count = 0; fault_offset = no_fault; card = card } }
{
    Answered {
        refusal,
        count: 0,
        fault_offset: NO_FAULT,
        card,
    }
}

// What is answered, with this fault offset.
pub fn with_fault(told: Answered, fault_offset: usize) -> Answered
    ensures { result ≡ record { refusal = told.refusal; count = told.count; fault_offset = fault_offset; card = told.card } }
{
    let mut r = told;
    r.fault_offset = fault_offset;
    r
}

// Whether a supply has the form that is asked for: its length, and a flag byte of 0 or 1. One that is not read has every form.
pub fn supply_suits(k: Supply, s: &[u8]) -> bool
    ensures { result ≡ suits k s.now }
{
    if k.kind == 0 {
        return true;
    }
    if s.len() != k.bytes {
        return false;
    }
    if !k.flagged {
        return true;
    }
    if s.len() == 0 {
        return true;
    }
    s[0] <= FLAG_YES
}
