// A card on the command line: calls are read line by line from standard input, and what each gives is written (docs/SOFTCARD.md).
// Every length, room and count is in bytes and is written with its unit.
// A read or a write that fails ends the program with its error.
// Proved: every function is safe and ends. What the operations give is proved in the crates below.
#![tactic(auto)]

mod help;
mod plays;

use soft_state::{BadLine, CallError, Desk, Line};
use std::io;
use std::io::IsTerminal;
use text_line::LineError;

const LINE_MAX_BYTES: usize = 4096;

// A line is shown as it was read, before its answer; its bytes need not be text.
fn echo(rt: &impl Print, front: &[u8], line: &[u8]) -> io::Result<()> {
    rt.write_all(front)?;
    rt.write_all(line)?;
    rt.write_all(b"\n")
}

fn bad(rt: &impl Print, bad_line: BadLine) -> io::Result<()> {
    println!(rt; "bad line: {bad_line}; nothing changed")
}

// One line, which is a call, a comment or blank. It is not shown where the terminal shows it already.
fn play_line<R: Print>(desk: &mut Desk<'_, R>, is_shown: bool, bytes: &[u8]) -> io::Result<()> {
    let line = Line { bytes };
    let is_call = line.count() > 0 && !text_words::is_comment(bytes);
    if !is_shown {
        let front: &[u8] = if is_call { b"> " } else { b"" };
        let text: &[u8] = if line.count() > 0 { bytes } else { b"" };
        echo(desk.rt, front, text)?;
    }
    if !is_call {
        return Ok(());
    }
    match plays::play(desk, line) {
        Ok(()) => Ok(()),
        Err(CallError::Line(bad_line)) => bad(desk.rt, bad_line),
        Err(CallError::Io(error)) => Err(error),
    }
}

fn main(rt: HostRuntime) -> io::Result<()> {
    let mut input = rt.stdin();
    let is_shown = input.is_terminal();
    if is_shown {
        println!(&rt; "A soft card. Every length is in bytes. help lists the calls.")?;
    }
    let mut desk = Desk::new(&rt);
    let mut buf = [0u8; LINE_MAX_BYTES];
    for _ in 0..u64::MAX {
        if is_shown {
            print!(&rt; "> ")?;
        }
        match text_line::read_line(&mut input, &mut buf) {
            Ok(None) => break,
            Ok(Some(line)) => {
                let bytes = text_words::without_return(line);
                play_line(&mut desk, is_shown, bytes)?;
            }
            Err(LineError::TooLong) => bad(&rt, BadLine::TooLong)?,
            Err(LineError::Io(error)) => return Err(error),
        }
    }
    Ok(())
}
