// The soft card's calls of commands and of the terminal's end: ASK, ANSWER, SEAL, UNSEAL, all four in a row, WALK, ENTROPY, and the session.
// Every length, room, count and offset is in bytes.
// Proved: every function is safe and ends.
#![tactic(auto)]

use channel_rules::Session;
use soft_card_bytes::{SESSION_AT, SESSION_BYTES};
use soft_names::{Refusal, Refused};
use soft_state::{BadLine, CallError, Desk, Line};
use std::io;

pub fn ask<R: Print>(desk: &Desk<'_, R>, line: Line<'_>) -> Result<(), CallError> {
    let cmd = line.value(desk, 1, "COMMAND")?;
    let room_bytes = line.room(2, refusals::ASK_ROOM_BYTES)?;
    soft_steps::ask(desk, cmd.as_slice(), room_bytes)?;
    Ok(())
}

// ANSWER; the opened data are not known, so a fault offset is told without its tag.
pub fn answer<R: Print>(desk: &mut Desk<'_, R>, line: Line<'_>) -> Result<(), CallError> {
    let cmd = line.value(desk, 1, "COMMAND")?;
    let supply = line.value(desk, 2, "SUPPLY")?;
    let room_bytes = line.room(3, refusals::ANSWER_ROOM_BYTES)?;
    soft_steps::answer(desk, cmd.as_slice(), supply.as_slice(), &[], room_bytes)?;
    soft_show::say_card(desk.rt, &desk.card)?;
    Ok(())
}

pub fn seal<R: Print>(desk: &mut Desk<'_, R>, line: Line<'_>) -> Result<(), CallError> {
    let header = line.array(desk, 1, "HEADER")?;
    let plain = line.value(desk, 2, "DATA")?;
    let room_bytes = line.room(3, refusals::SEAL_ROOM_BYTES)?;
    soft_steps::seal(desk, header, plain.as_slice(), room_bytes)?;
    Ok(())
}

pub fn unseal<R: Print>(desk: &mut Desk<'_, R>, line: Line<'_>) -> Result<(), CallError> {
    let response = line.value(desk, 1, "RESPONSE")?;
    let room_bytes = line.room(2, refusals::UNSEAL_ROOM_BYTES)?;
    soft_steps::unseal(desk, response.as_slice(), room_bytes)?;
    Ok(())
}

// ---- send
// The sealed command, which is the last, is asked about and answered; whether neither was refused. `data` is what was sealed.
fn exchange<R: Print>(desk: &mut Desk<'_, R>, data: &[u8], supply: &[u8]) -> io::Result<bool> {
    let cmd = desk.last;
    if !soft_steps::ask(desk, cmd.as_slice(), refusals::ASK_ROOM_BYTES)? {
        return Ok(false);
    }
    soft_steps::answer(
        desk,
        cmd.as_slice(),
        supply,
        data,
        refusals::ANSWER_ROOM_BYTES,
    )
}

// The word numbers before a response's status word, if that is 9000.
fn say_numbers(rt: &impl Print, response: &[u8]) -> io::Result<()> {
    match response.split_last_chunk::<2>() {
        Some((numbers, word)) if u16::from_be_bytes(*word) == rules::SUCCESS => {
            soft_names::say_words(rt, numbers)
        }
        _ => Ok(()),
    }
}

// The card's answer, which is the last, is unsealed; of GENERATE MNEMONIC's, the word numbers are told.
fn open<R: Print>(desk: &mut Desk<'_, R>, ins: u8) -> io::Result<()> {
    let response = desk.last;
    let done = soft_steps::unseal(desk, response.as_slice(), refusals::UNSEAL_ROOM_BYTES)?;
    if done && ins == rules::INS_MNEMONIC {
        say_numbers(desk.rt, desk.last.as_slice())?;
    }
    soft_show::say_card(desk.rt, &desk.card)
}

// Where ASK or ANSWER is refused, the terminal has the session that it had.
pub fn send<R: Print>(desk: &mut Desk<'_, R>, line: Line<'_>) -> Result<(), CallError> {
    let header: [u8; 4] = line.array(desk, 1, "HEADER")?;
    let plain = line.value(desk, 2, "DATA")?;
    let supply = line.value(desk, 3, "SUPPLY")?;
    let before = desk.session;
    if !soft_steps::seal(desk, header, plain.as_slice(), refusals::SEAL_ROOM_BYTES)? {
        return Ok(());
    }
    if exchange(desk, plain.as_slice(), supply.as_slice())? {
        open(desk, header[1])?;
    } else {
        println!(desk.rt; "  session: as before")?;
        desk.session = before;
    }
    Ok(())
}

// ---- WALK
pub fn walk<R: Print>(desk: &Desk<'_, R>, line: Line<'_>) -> Result<(), CallError> {
    let input = line.value(desk, 1, "BYTES")?;
    let walked = soft_byte_calls::walk(input.as_slice());
    match (Refusal::of(walked.refusal), walked.count) {
        (Some(refusal), _) => {
            let refused = Refused {
                refusal,
                room_bytes: 0,
            };
            println!(desk.rt; "walk: {refused}")?;
            soft_names::say_fault(desk.rt, input.as_slice(), walked.fault_offset)?;
        }
        (None, 1) => println!(desk.rt; "walk: 1 field")?,
        (None, fields) => println!(desk.rt; "walk: {fields} fields")?,
    }
    Ok(())
}

// ---- ENTROPY
pub fn entropy<R: Print>(desk: &mut Desk<'_, R>, line: Line<'_>) -> Result<(), CallError> {
    let words = line.value(desk, 1, "WORDS")?;
    let room_bytes = line.room(2, refusals::ENTROPY_ROOM_BYTES)?;
    soft_steps::entropy(desk, words.as_slice(), room_bytes)?;
    Ok(())
}

// ---- the session
fn take<R: Print>(desk: &mut Desk<'_, R>, session: [u8; SESSION_BYTES]) -> Result<(), CallError> {
    println!(desk.rt; "session: taken")?;
    desk.session = session;
    Ok(())
}

// The session of the card's channel: its keys and its IV, one after the other in its record.
fn take_of_card<R: Print>(desk: &mut Desk<'_, R>) -> Result<(), CallError> {
    let mut session = [0u8; SESSION_BYTES];
    soft_card_bytes::fill(&mut session, &desk.card, SESSION_AT);
    take(desk, session)
}

fn take_given<R: Print>(desk: &mut Desk<'_, R>, line: Line<'_>) -> Result<(), CallError> {
    let enc_key = line.array(desk, 1, "ENC")?;
    let mac_key = line.array(desk, 2, "MAC")?;
    let iv = line.array(desk, 3, "IV")?;
    let session = soft_card_put::session_bytes(Session {
        enc_key,
        mac_key,
        iv,
    });
    take(desk, session)
}

// The session is shown, or another is taken: the card's, or the one that the line gives.
pub fn session<R: Print>(desk: &mut Desk<'_, R>, line: Line<'_>) -> Result<(), CallError> {
    match (line.count(), line.word(1)) {
        (1, _) => Ok(soft_show::say_session(desk.rt, desk.session)?),
        (4, _) => take_given(desk, line),
        (_, b"card") => take_of_card(desk),
        _ => Err(CallError::Line(BadLine::OtherWords("session"))),
    }
}
