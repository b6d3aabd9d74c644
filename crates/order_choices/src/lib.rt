// Step 5 of the order of checks: the command that an instruction lists at P1 and P2 (RULES 6.1), if any.
// Slots are counted from 0.
// Proved: the choice is the one of the rulebook's row, for every instruction, P1 and P2.
#![tactic(auto)]

ghost use Rattle.std.specs.Prelude.{◌≡◌};
ghost use Rattle.rules.specs.declared.Instruction.TheVariants as ins;
ghost use Rattle.rules.specs.Rows.{row_of};
ghost use Rattle.rules.specs.Code.{choice_of};

use order_lists::{export, is_slot, load, mnemonic, only};
use rules::{Command, Instruction, SecretKind, StatusKind};

fn open(p1: u8, p2: u8) -> Option<Command>
    ensures { result ≡ choice_of ((row_of ins.Open).lists p1 p2) }
{
    is_slot(p1, p2).then_some(Command::Open(p1))
}

fn unpair(p1: u8, p2: u8) -> Option<Command>
    ensures { result ≡ choice_of ((row_of ins.Unpair).lists p1 p2) }
{
    is_slot(p1, p2).then_some(Command::Unpair(p1))
}

fn pair(p1: u8, p2: u8) -> Option<Command>
    ensures { result ≡ choice_of ((row_of ins.Pair).lists p1 p2) }
{
    if p2 != 0 {
        return None;
    }
    match p1 {
        0x00 => Some(Command::PairFirst),
        0x01 => Some(Command::PairFinal),
        _ => None,
    }
}

fn status(p1: u8, p2: u8) -> Option<Command>
    ensures { result ≡ choice_of ((row_of ins.Status).lists p1 p2) }
{
    if p2 != 0 {
        return None;
    }
    match p1 {
        0x00 => Some(Command::Status(StatusKind::Application)),
        0x01 => Some(Command::Status(StatusKind::Path)),
        _ => None,
    }
}

fn change(p1: u8, p2: u8) -> Option<Command>
    ensures { result ≡ choice_of ((row_of ins.Change).lists p1 p2) }
{
    if p2 != 0 {
        return None;
    }
    match p1 {
        0x00 => Some(Command::Change(SecretKind::Pin)),
        0x01 => Some(Command::Change(SecretKind::Puk)),
        0x02 => Some(Command::Change(SecretKind::Pairing)),
        _ => None,
    }
}

// Step 5: P1 and P2.
pub fn choose(i: Instruction, p1: u8, p2: u8) -> Option<Command>
    ensures { result ≡ choice_of ((row_of i).lists p1 p2) }
{
    match i {
        Instruction::Select => only(0x04, Command::Select, p1, p2),
        Instruction::Init => only(0x00, Command::Init, p1, p2),
        Instruction::Open => open(p1, p2),
        Instruction::Mutual => only(0x00, Command::Mutual, p1, p2),
        Instruction::Pair => pair(p1, p2),
        Instruction::Unpair => unpair(p1, p2),
        Instruction::Status => status(p1, p2),
        Instruction::Verify => only(0x00, Command::Verify, p1, p2),
        Instruction::Change => change(p1, p2),
        Instruction::Unblock => only(0x00, Command::Unblock, p1, p2),
        Instruction::Load => load(p1, p2),
        Instruction::Derive => only(0x00, Command::Derive, p1, p2),
        Instruction::Remove => only(0x00, Command::Remove, p1, p2),
        Instruction::SetPinless => only(0x00, Command::SetPinless, p1, p2),
        Instruction::Sign => only(0x00, Command::Sign, p1, p2),
        Instruction::Export => export(p1, p2),
        Instruction::SetNdef => only(0x00, Command::SetNdef, p1, p2),
        Instruction::Mnemonic => mnemonic(p1, p2),
    }
}
