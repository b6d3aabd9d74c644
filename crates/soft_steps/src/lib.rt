// The operations that write to a buffer, and what the soft card says of their results: ASK, ANSWER, SEAL, UNSEAL, WRITE, ENTROPY.
// Every length, room, count and offset is in bytes.
// Each function answers whether the operation was done and not refused; the desk changes only where it was.
// Proved: every function is safe and ends.
#![tactic(auto)]

use soft_names::{Refusal, Refused, StatusWord, Supply};
use soft_state::{Desk, Value};
use soft_word_bytes::VALUE_MAX_BYTES;
use std::io;
use text_print::Bytes;

// The buffer that an operation gets. A room over the most is cut to it: no operation writes as much.
fn lend<R>(desk: &Desk<'_, R>, room_bytes: usize) -> io::Result<Value> {
    desk.buffer(room_bytes.min(VALUE_MAX_BYTES))
}

// Whether an operation with this refusal's number was done. A refusal is told, with the room that the operation asks for.
fn is_done(rt: &impl Print, name: &str, refusal: u8, room_bytes: usize) -> io::Result<bool> {
    match Refusal::of(refusal) {
        None => Ok(true),
        Some(refusal) => {
            let refused = Refused {
                refusal,
                room_bytes,
            };
            println!(rt; "{name} {refused}")?;
            Ok(false)
        }
    }
}

// What an operation wrote from the start of a buffer is shown, and is now the last.
fn wrote<R: Print>(
    desk: &mut Desk<'_, R>,
    name: &str,
    mut buf: Value,
    count: usize,
) -> io::Result<()> {
    let n = text_fill::bounded(count, buf.as_slice());
    buf.truncate(n);
    println!(desk.rt; "{name} {}", Bytes(buf.as_slice()))?;
    desk.last = buf;
    Ok(())
}

// The same where it ends in a status word.
fn wrote_response<R: Print>(
    desk: &mut Desk<'_, R>,
    name: &str,
    buf: Value,
    count: usize,
) -> io::Result<()> {
    wrote(desk, name, buf, count)?;
    match StatusWord::of(desk.last.as_slice()) {
        Some(word) => println!(desk.rt; "  status word {word}"),
        None => Ok(()),
    }
}

// ASK.
pub fn ask<R: Print>(desk: &Desk<'_, R>, cmd: &[u8], room_bytes: usize) -> io::Result<bool> {
    let mut buf = lend(desk, room_bytes)?;
    let n = buf.len();
    let asked = soft_byte_calls::ask(desk.card, cmd, &mut buf.space[..n]);
    if !is_done(desk.rt, "ask:", asked.refusal, refusals::ASK_ROOM_BYTES)? {
        return Ok(false);
    }
    let supply = Supply(asked.kind);
    println!(desk.rt; "ask: {supply}")?;
    if supply != Supply::NONE {
        let n = text_fill::bounded(asked.count, buf.as_slice());
        buf.truncate(n);
        println!(desk.rt; "  data {}", Bytes(buf.as_slice()))?;
    }
    Ok(true)
}

// ANSWER; `opened` is the data that the command holds, where they are known, for the tag at a fault offset.
pub fn answer<R: Print>(
    desk: &mut Desk<'_, R>,
    cmd: &[u8],
    supply: &[u8],
    opened: &[u8],
    room_bytes: usize,
) -> io::Result<bool> {
    let mut buf = lend(desk, room_bytes)?;
    let n = buf.len();
    let told = soft_byte_calls::answer(desk.card, cmd, supply, &mut buf.space[..n]);
    if !is_done(
        desk.rt,
        "answer:",
        told.refusal,
        refusals::ANSWER_ROOM_BYTES,
    )? {
        return Ok(false);
    }
    wrote_response(desk, "answer:", buf, told.count)?;
    desk.card = told.card;
    if told.fault_offset != rules::NO_FAULT {
        soft_names::say_fault(desk.rt, opened, told.fault_offset)?;
    }
    Ok(true)
}

// SEAL. The header is CLA INS P1 P2.
pub fn seal<R: Print>(
    desk: &mut Desk<'_, R>,
    header: [u8; 4],
    plain: &[u8],
    room_bytes: usize,
) -> io::Result<bool> {
    let mut buf = lend(desk, room_bytes)?;
    let n = buf.len();
    let sealed = soft_byte_calls::seal(desk.session, header, plain, &mut buf.space[..n]);
    if !is_done(desk.rt, "seal:", sealed.refusal, refusals::SEAL_ROOM_BYTES)? {
        return Ok(false);
    }
    wrote(desk, "seal:", buf, sealed.count)?;
    desk.session = sealed.session;
    Ok(true)
}

// UNSEAL.
pub fn unseal<R: Print>(
    desk: &mut Desk<'_, R>,
    response: &[u8],
    room_bytes: usize,
) -> io::Result<bool> {
    let mut buf = lend(desk, room_bytes)?;
    let n = buf.len();
    let opened = soft_byte_calls::unseal(desk.session, response, &mut buf.space[..n]);
    if !is_done(
        desk.rt,
        "unseal:",
        opened.refusal,
        refusals::UNSEAL_ROOM_BYTES,
    )? {
        return Ok(false);
    }
    wrote_response(desk, "unseal:", buf, opened.count)?;
    desk.session = opened.session;
    Ok(true)
}

// WRITE.
pub fn write<R: Print>(desk: &mut Desk<'_, R>, room_bytes: usize) -> io::Result<bool> {
    let mut buf = lend(desk, room_bytes)?;
    let n = buf.len();
    let written = soft_byte_calls::write(desk.card, &mut buf.space[..n]);
    if !is_done(
        desk.rt,
        "write:",
        written.refusal,
        record_rules::WRITE_ROOM_BYTES,
    )? {
        return Ok(false);
    }
    wrote(desk, "write:", buf, written.count)?;
    Ok(true)
}

// ENTROPY.
pub fn entropy<R: Print>(
    desk: &mut Desk<'_, R>,
    words: &[u8],
    room_bytes: usize,
) -> io::Result<bool> {
    let mut buf = lend(desk, room_bytes)?;
    let n = buf.len();
    let entropy = phrase_reverse::entropy_of(words, &mut buf.space[..n]);
    if !is_done(
        desk.rt,
        "entropy:",
        entropy.refusal,
        refusals::ENTROPY_ROOM_BYTES,
    )? {
        return Ok(false);
    }
    wrote(desk, "entropy:", buf, entropy.count)?;
    Ok(true)
}
