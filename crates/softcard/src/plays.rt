// Which call a line is, and whether it has the words that the call takes.
use crate::help::help;
use soft_state::{BadLine, CallError, Desk, Line};

#[derive(Clone, Copy)]
enum Call {
    Fresh,
    Reset,
    Read,
    Write,
    Tap,
    Sound,
    Card,
    Set,
    Ask,
    Answer,
    Seal,
    Unseal,
    Send,
    Walk,
    Entropy,
    Session,
    Help,
}

// A row of the table of calls: a name, and how many words the call may have, its name included.
struct Row {
    call: Call,
    name: &'static str,
    words: &'static [usize],
}

static CALLS: [Row; 17] = [
    Row {
        call: Call::Fresh,
        name: "fresh",
        words: &[3],
    },
    Row {
        call: Call::Reset,
        name: "reset",
        words: &[1],
    },
    Row {
        call: Call::Read,
        name: "read",
        words: &[2],
    },
    Row {
        call: Call::Write,
        name: "write",
        words: &[1, 3],
    },
    Row {
        call: Call::Tap,
        name: "tap",
        words: &[3],
    },
    Row {
        call: Call::Sound,
        name: "sound",
        words: &[1],
    },
    Row {
        call: Call::Card,
        name: "card",
        words: &[1],
    },
    Row {
        call: Call::Set,
        name: "set",
        words: &[3],
    },
    Row {
        call: Call::Ask,
        name: "ask",
        words: &[2, 4],
    },
    Row {
        call: Call::Answer,
        name: "answer",
        words: &[3, 5],
    },
    Row {
        call: Call::Seal,
        name: "seal",
        words: &[3, 5],
    },
    Row {
        call: Call::Unseal,
        name: "unseal",
        words: &[2, 4],
    },
    Row {
        call: Call::Send,
        name: "send",
        words: &[4],
    },
    Row {
        call: Call::Walk,
        name: "walk",
        words: &[2],
    },
    Row {
        call: Call::Entropy,
        name: "entropy",
        words: &[2, 4],
    },
    Row {
        call: Call::Session,
        name: "session",
        words: &[1, 2, 4],
    },
    Row {
        call: Call::Help,
        name: "help",
        words: &[1],
    },
];

// The call of a line with at least one word.
fn call_of(line: Line<'_>) -> Result<Call, BadLine> {
    let name = line.word(0);
    let row = CALLS
        .iter()
        .find(|row| row.name.as_bytes() == name)
        .ok_or(BadLine::NoSuchCall)?;
    if row.words.contains(&line.count()) {
        Ok(row.call)
    } else {
        Err(BadLine::OtherWords(row.name))
    }
}

// A line with at least one word.
pub fn play<R: Print>(desk: &mut Desk<'_, R>, line: Line<'_>) -> Result<(), CallError> {
    match call_of(line)? {
        Call::Fresh => soft_card_calls::fresh(desk, line),
        Call::Reset => soft_card_calls::reset(desk),
        Call::Read => soft_card_calls::read(desk, line),
        Call::Write => soft_card_calls::write(desk, line),
        Call::Tap => soft_card_calls::tap(desk, line),
        Call::Sound => soft_card_calls::sound(desk),
        Call::Card => soft_card_calls::card(desk),
        Call::Set => soft_card_calls::set(desk, line),
        Call::Ask => soft_channel_calls::ask(desk, line),
        Call::Answer => soft_channel_calls::answer(desk, line),
        Call::Seal => soft_channel_calls::seal(desk, line),
        Call::Unseal => soft_channel_calls::unseal(desk, line),
        Call::Send => soft_channel_calls::send(desk, line),
        Call::Walk => soft_channel_calls::walk(desk, line),
        Call::Entropy => soft_channel_calls::entropy(desk, line),
        Call::Session => soft_channel_calls::session(desk, line),
        Call::Help => Ok(help(desk.rt)?),
    }
}
