// The rows of the instructions (RULES 6.1), as the code reads them: step 3 of the order of checks, and what steps 4 to 6 ask of an instruction.
// P1 and P2 are in the crate order_choices. Stages are counted from 0.
// Proved: each answer is the rulebook's row, for every class and every instruction byte.
#![tactic(auto)]

ghost use Rattle.std.specs.Prelude.{◌≡◌};
ghost use Rattle.rules.specs.Rows.{row_of, class80, offered};
ghost use Rattle.rules.specs.Steps.{name_of, with_byte, by_class};

use card::{STAGE_AUTHENTICATED, STAGE_CLOSED, STAGE_OPENED};
use rules::{
    CLASS, CLASS_SELECT, INS_CHANGE, INS_DERIVE, INS_EXPORT, INS_INIT, INS_LOAD, INS_MNEMONIC,
    INS_MUTUAL, INS_OPEN, INS_PAIR, INS_REMOVE, INS_SELECT, INS_SET_NDEF, INS_SET_PINLESS,
    INS_SIGN, INS_STATUS, INS_UNBLOCK, INS_UNPAIR, INS_VERIFY, Instruction, Loss, Offer, Unnamed,
};

// The instructions of class 80.
fn of_class_80(ins: u8) -> Result<Instruction, Unnamed>
    ensures { result ≡ with_byte ins class80 }
{
    match ins {
        INS_INIT => Ok(Instruction::Init),
        INS_OPEN => Ok(Instruction::Open),
        INS_MUTUAL => Ok(Instruction::Mutual),
        INS_PAIR => Ok(Instruction::Pair),
        INS_UNPAIR => Ok(Instruction::Unpair),
        INS_STATUS => Ok(Instruction::Status),
        INS_VERIFY => Ok(Instruction::Verify),
        INS_CHANGE => Ok(Instruction::Change),
        INS_UNBLOCK => Ok(Instruction::Unblock),
        INS_LOAD => Ok(Instruction::Load),
        INS_DERIVE => Ok(Instruction::Derive),
        INS_REMOVE => Ok(Instruction::Remove),
        INS_SET_PINLESS => Ok(Instruction::SetPinless),
        INS_SIGN => Ok(Instruction::Sign),
        INS_EXPORT => Ok(Instruction::Export),
        INS_SET_NDEF => Ok(Instruction::SetNdef),
        INS_MNEMONIC => Ok(Instruction::Mnemonic),
        _ => Err(Unnamed::Unknown),
    }
}

fn by_class(cla: u8, ins: u8) -> Result<Instruction, Unnamed>
    ensures { result ≡ by_class cla ins }
{
    if cla == CLASS {
        return of_class_80(ins);
    }
    let class_0 = cla == CLASS_SELECT;
    let select = ins == INS_SELECT;
    if class_0 & select {
        return Ok(Instruction::Select);
    }
    Err(Unnamed::WrongClass)
}

// A row: where the instruction is offered; the lowest stage of the channel that it goes in, 0 for those that are plain in every stage; and what
// it gives up.
#[derive(Clone, Copy)]
pub struct Row {
    pub offer: Offer,
    pub stage: u8,
    pub loss: Loss,
}

fn entry(offer: Offer, stage: u8, loss: Loss) -> Row
    ensures { (result.offer ≡ offer) × ((result.stage ≡ stage) × (result.loss ≡ loss)) }
{
    Row { offer, stage, loss }
}

// The rows, one line each.
fn row_of(i: Instruction) -> Row
    ensures { (result.offer ≡ (row_of i).offer) × ((result.stage ≡ (row_of i).stage) × (result.loss ≡ (row_of i).loss)) }
{
    match i {
        Instruction::Select => entry(Offer::Always, STAGE_CLOSED, Loss::Nothing),
        Instruction::Init => entry(Offer::BeforeInit, STAGE_CLOSED, Loss::Nothing),
        Instruction::Open => entry(Offer::AfterInit, STAGE_CLOSED, Loss::Channel),
        Instruction::Mutual => entry(Offer::AfterInit, STAGE_OPENED, Loss::HalfOpen),
        Instruction::Pair => entry(Offer::AfterInit, STAGE_CLOSED, Loss::Pending),
        Instruction::Unpair => entry(Offer::AfterInit, STAGE_AUTHENTICATED, Loss::Nothing),
        Instruction::Status => entry(Offer::AfterInit, STAGE_AUTHENTICATED, Loss::Nothing),
        Instruction::Verify => entry(Offer::AfterInit, STAGE_AUTHENTICATED, Loss::Nothing),
        Instruction::Change => entry(Offer::AfterInit, STAGE_AUTHENTICATED, Loss::Nothing),
        Instruction::Unblock => entry(Offer::AfterInit, STAGE_AUTHENTICATED, Loss::Nothing),
        Instruction::Load => entry(Offer::AfterInit, STAGE_AUTHENTICATED, Loss::Nothing),
        Instruction::Derive => entry(Offer::AfterInit, STAGE_AUTHENTICATED, Loss::Nothing),
        Instruction::Remove => entry(Offer::AfterInit, STAGE_AUTHENTICATED, Loss::Nothing),
        Instruction::SetPinless => entry(Offer::AfterInit, STAGE_AUTHENTICATED, Loss::Nothing),
        Instruction::Sign => entry(Offer::AfterInit, STAGE_AUTHENTICATED, Loss::Nothing),
        Instruction::Export => entry(Offer::AfterInit, STAGE_AUTHENTICATED, Loss::Nothing),
        Instruction::SetNdef => entry(Offer::AfterInit, STAGE_AUTHENTICATED, Loss::Nothing),
        Instruction::Mnemonic => entry(Offer::AfterInit, STAGE_AUTHENTICATED, Loss::Nothing),
    }
}

// Where an instruction is offered.
fn offer_of(i: Instruction) -> Offer
    ensures { result ≡ (row_of i).offer }
{
    let r = row_of(i);
    r.offer
}

// Whether a card has what is offered so, before INIT or after it.
fn is_offered(offer: Offer, initialised: bool) -> bool
    ensures { result ≡ offered offer initialised }
{
    match offer {
        Offer::Always => true,
        Offer::BeforeInit => !initialised,
        Offer::AfterInit => initialised,
    }
}

// Step 3: class and instruction.
#[tactic(auto, unfolding(rules::specs::Steps::name_of))]
pub fn name(initialised: bool, cla: u8, ins: u8) -> Result<Instruction, Unnamed>
    ensures { result ≡ name_of initialised cla ins }
{
    let i = by_class(cla, ins)?;
    if is_offered(offer_of(i), initialised) {
        Ok(i)
    } else {
        Err(Unnamed::Unknown)
    }
}

// Step 4: the lowest stage of the channel that an instruction goes in; 0 for those that are plain in every stage.
pub fn stage_of(i: Instruction) -> u8
    ensures { result ≡ (row_of i).stage }
{
    let r = row_of(i);
    r.stage
}

// Steps 5 and 6: what an instruction gives up.
pub fn loss_of(i: Instruction) -> Loss
    ensures { result ≡ (row_of i).loss }
{
    let r = row_of(i);
    r.loss
}
