// The lists of P1 and P2 of LOAD, EXPORT and GENERATE MNEMONIC, of an instruction with one P1, and of the slots (RULES 6.1).
// Slots are counted from 0.
// Proved: each choice is the one of the rulebook's row, for every P1 and P2.
#![tactic(auto)]

ghost use Rattle.std.specs.Prelude.{◌≡◌, ◌&&◌, ltb};
ghost use Rattle.card.specs.State.{slot_count};
ghost use Rattle.card.specs.Slots.{is_zero};
ghost use Rattle.rules.specs.declared.Instruction.TheVariants as ins;
ghost use Rattle.rules.specs.Rows.{row_of, only, at_p1, exports};
ghost use Rattle.rules.specs.Code.{choice_of};

use card::{Card, wide};
use rules::{Command, ExportPart, ExportPath, KeyForm, Phrase};

// The command of an instruction that lists one P1 alone, with P2 00.
pub fn only(value: u8, k: Command, p1: u8, p2: u8) -> Option<Command>
    ensures { result ≡ choice_of (only value k p1 p2) }
{
    let p1_listed = p1 == value;
    let p2_listed = p2 == 0;
    (p2_listed & p1_listed).then_some(k)
}

// Whether P1 is the index of a slot, and P2 is 00.
pub fn is_slot(p1: u8, p2: u8) -> bool
    ensures { result ≡ is_zero p2 && ltb p1 slot_count }
{
    let slot = wide(p1) < Card::SLOTS;
    let p2_zero = p2 == 0;
    p2_zero & slot
}

pub fn load(p1: u8, p2: u8) -> Option<Command>
    ensures { result ≡ choice_of ((row_of ins.Load).lists p1 p2) }
{
    if p2 != 0 {
        return None;
    }
    match p1 {
        0x01 => Some(Command::Load(KeyForm::Keypair)),
        0x02 => Some(Command::Load(KeyForm::Extended)),
        0x03 => Some(Command::Load(KeyForm::Seed)),
        _ => None,
    }
}

// EXPORT with this part: its three P1.
fn export_of(what: ExportPart, p1: u8) -> Option<Command>
    ensures { result ≡ choice_of (at_p1 (exports what) p1) }
{
    match p1 {
        0x00 => Some(Command::Export(ExportPath::Current, what)),
        0x01 => Some(Command::Export(ExportPath::Given, what)),
        0x02 => Some(Command::Export(ExportPath::MakeCurrent, what)),
        _ => None,
    }
}

pub fn export(p1: u8, p2: u8) -> Option<Command>
    ensures { result ≡ choice_of ((row_of ins.Export).lists p1 p2) }
{
    match p2 {
        0x00 => export_of(ExportPart::PrivateAndPublic, p1),
        0x01 => export_of(ExportPart::PublicOnly, p1),
        _ => None,
    }
}

pub fn mnemonic(p1: u8, p2: u8) -> Option<Command>
    ensures { result ≡ choice_of ((row_of ins.Mnemonic).lists p1 p2) }
{
    if p2 != 0 {
        return None;
    }
    match p1 {
        0x04 => Some(Command::Mnemonic(Phrase::Words12)),
        0x05 => Some(Command::Mnemonic(Phrase::Words15)),
        0x06 => Some(Command::Mnemonic(Phrase::Words18)),
        0x07 => Some(Command::Mnemonic(Phrase::Words21)),
        0x08 => Some(Command::Mnemonic(Phrase::Words24)),
        _ => None,
    }
}
