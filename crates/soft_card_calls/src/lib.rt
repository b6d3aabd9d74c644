// The soft card's calls on the card alone: FRESH, RESET, READ, WRITE, soundness, its fields, and the tap read of a stored record.
// Every length, room and count is in bytes.
// Proved: every function is safe and ends.
#![tactic(auto)]

use record_tap::TapPlace;
use soft_card_bytes::CARD_BYTES;
use soft_names::{Refusal, Refused};
use soft_show::Field;
use soft_state::{BadLine, CallError, Desk, Line};
use std::io;
use text_print::Bytes;

// The card changes, and is shown.
fn put_card<R: Print>(desk: &mut Desk<'_, R>, card: [u8; CARD_BYTES]) -> io::Result<()> {
    soft_show::say_card(desk.rt, &card)?;
    desk.card = card;
    Ok(())
}

// The refusal of this number; of an operation that asks for no buffer.
fn refused(number: u8) -> Option<Refused> {
    Refusal::of(number).map(|refusal| Refused {
        refusal,
        room_bytes: 0,
    })
}

pub fn fresh<R: Print>(desk: &mut Desk<'_, R>, line: Line<'_>) -> Result<(), CallError> {
    let uid = line.array(desk, 1, "UID")?;
    let public_key = line.array(desk, 2, "KEY")?;
    println!(desk.rt; "fresh: done")?;
    put_card(desk, soft_byte_calls::fresh(uid, public_key))?;
    Ok(())
}

pub fn reset<R: Print>(desk: &mut Desk<'_, R>) -> Result<(), CallError> {
    let given = soft_byte_calls::reset(desk.card);
    match refused(given.refusal) {
        None => println!(desk.rt; "reset: done")?,
        Some(refused) => println!(desk.rt; "reset: {refused}")?,
    }
    put_card(desk, given.card)?;
    Ok(())
}

pub fn read<R: Print>(desk: &mut Desk<'_, R>, line: Line<'_>) -> Result<(), CallError> {
    let stored = line.value(desk, 1, "RECORD")?;
    let given = soft_byte_calls::read(stored.as_slice());
    match refused(given.refusal) {
        None => println!(desk.rt; "read: done")?,
        Some(refused) => println!(desk.rt; "read: {refused}, the card is FRESH of zeros")?,
    }
    put_card(desk, given.card)?;
    Ok(())
}

pub fn write<R: Print>(desk: &mut Desk<'_, R>, line: Line<'_>) -> Result<(), CallError> {
    let room_bytes = line.room(1, record_rules::WRITE_ROOM_BYTES)?;
    soft_steps::write(desk, room_bytes)?;
    Ok(())
}

// The tap read: which part of a stored record and a factory record is the tap record.
pub fn tap<R: Print>(desk: &Desk<'_, R>, line: Line<'_>) -> Result<(), CallError> {
    let record = line.value(desk, 1, "RECORD")?;
    let factory = line.value(desk, 2, "FACTORY")?;
    let record = record.as_slice();
    if let Some(refused) = refused(record_tap::tap_refusal(record)) {
        println!(desk.rt; "tap: {refused}, the part is empty")?;
        return Ok(());
    }
    let part = Bytes(record_tap::tap_record(record, factory.as_slice()));
    match record_tap::tap_place(record) {
        TapPlace::Own { start, count: _ } => {
            println!(desk.rt; "tap: record, offset {start}, {part}")?;
        }
        _ => println!(desk.rt; "tap: factory, offset 0, {part}")?,
    }
    Ok(())
}

pub fn sound<R: Print>(desk: &Desk<'_, R>) -> Result<(), CallError> {
    let answer = if soft_byte_calls::sound(desk.card) {
        "yes"
    } else {
        "no"
    };
    println!(desk.rt; "sound: {answer}")?;
    Ok(())
}

pub fn card<R: Print>(desk: &Desk<'_, R>) -> Result<(), CallError> {
    soft_show::say_fields(desk.rt, &desk.card)?;
    Ok(())
}

// A field takes the bytes that the line gives, which are as many as it has.
pub fn set<R: Print>(desk: &mut Desk<'_, R>, line: Line<'_>) -> Result<(), CallError> {
    let field = Field::named(line.word(1)).ok_or(BadLine::NoSuchField)?;
    let value = line.value(desk, 2, "BYTES")?;
    if value.len() != field.len {
        return Err(CallError::Line(BadLine::OtherLength {
            name: field.name,
            wanted_bytes: field.len,
            given_bytes: value.len(),
        }));
    }
    println!(desk.rt; "set: {} {}", field.name, Bytes(value.as_slice()))?;
    let mut card = desk.card;
    soft_card_put::place(&mut card, field.at, value.as_slice());
    put_card(desk, card)?;
    Ok(())
}
