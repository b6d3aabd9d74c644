// Files of published vectors: lines `NAME = value` that make entries, and blank lines between the entries. For the programs.
// Places and lengths are in bytes.
// Proved: the lines are those between line feeds, in order; what a line says is taken as it says; an entry is given as it was read, and only
// where it has values; a line that is not understood is called by its place.
#![tactic(auto)]

ghost use Rattle.std.specs.Prelude.{◌≡◌, ◌==◌, Bool, cond, position, ◌+◌, ◌%◌, ◌^◌, ◌<◌, ◌≤◌, Some, length, IfOk, IfErr};
ghost use Rattle.std.specs.Option.{IfSome};
ghost use Rattle.std.specs.Iterator.{at_most};
ghost use Rattle.vector_files.specs.Faults.{fault_text, IsFault};
ghost use Rattle.vector_files.specs.Reading.{IsValueLine, IsWhole, Brings, Takes, Gives, IsRest, first_line, trimmed, starts_at, lines_left};

use std::rt::Files;
use std::{fmt, fs, io};

// Why a file is not tried.
#[derive(Clone, Copy)]
pub enum FileFault {
    // It cannot be opened.
    NotOpened,
    // It cannot be read, or is longer than so many bytes.
    NotRead(usize),
}

impl fmt::Display for FileFault {
    ghost output = { λ e. Some (fault_text e) };

    fn fmt<W: fmt::Write>(&self, f: &mut fmt::Formatter<W>) -> fmt::Result {
        match *self {
            FileFault::NotOpened => write!(f, "cannot be opened"),
            FileFault::NotRead(most_bytes) => {
                write!(f, "cannot be read, or is longer than {most_bytes} bytes")
            }
        }
    }
}

// Reads the file of that name whole to the start of `buf`, and gives the part of `buf` that it fills.
pub fn read_file<'b>(rt: &impl Files, name: &str, buf: &'b mut [u8]) -> Result<&'b [u8], FileFault>
    ensures fits { IfOk result (λ s. length s.now ≤ length buf.old) }
    ensures fault { IfErr result (IsFault (length buf.old)) }
{
    let not_read = FileFault::NotRead(buf.len());
    let Ok(mut file) = fs::open(rt, name) else {
        return Err(FileFault::NotOpened);
    };
    let Ok(n) = io::copy(&mut file, &mut &mut *buf) else {
        return Err(not_read);
    };
    match usize::try_from(n) {
        Ok(n) => buf.get(..n).ok_or(not_read),
        Err(_) => Err(not_read),
    }
}

// Entries that were found, and those of them that passed.
#[derive(Clone, Copy, Default)]
pub struct Count {
    pub found: u64,
    pub passed: u64,
}

impl Count {
    // Counts one entry more; no count of a run comes near the largest number.
    pub fn add(&mut self, passed: bool)
        ensures found { self.new.found ≡ (self.old.found + 1) % 2 ^ 64 }
        ensures passed { self.new.passed ≡ (self.old.passed + cond passed 1 0) % 2 ^ 64 }
    {
        self.found = self.found.wrapping_add(1);
        self.passed = self.passed.wrapping_add(u64::from(passed));
    }
}

// What a line says.
#[derive(Clone, Copy)]
pub enum Line<'a, S, N> {
    Blank,
    Comment,
    // A section begins.
    Section(S),
    // A value of the entry, which has that name.
    Value(N, &'a [u8]),
    Unknown,
}

// A line that holds a value: the first of these names, each with its equals sign, that it begins with, and what follows.
pub fn value_line<'a, S, N: Copy>(line: &'a [u8], names: &[(&str, N)]) -> Line<'a, S, N>
    ensures { IsValueLine line.now result }
{
    for (front, name) in names {
        if let Some(value) = line.strip_prefix(front.as_bytes()) {
            return Line::Value(*name, value);
        }
    }
    Line::Unknown
}

// An entry of a file: its section, and the values that are read so far.
pub trait Entry<'a>: Copy {
    // Whether an entry has no values.
    ghost empty: { Self → Bool };

    // What sections there are, and what names of values.
    type Section: Copy;

    type Name: Copy;

    // What a line of the file says.
    fn line(line: &'a [u8]) -> Line<'a, Self::Section, Self::Name>;

    // An entry with no values, in that section or before the first.
    fn begin(section: Option<Self::Section>) -> Self;

    fn section(&self) -> Option<Self::Section>;

    fn is_empty(&self) -> bool
        ensures { result ≡ empty self.now };

    // Puts a value that the entry does not have yet, and answers whether it had none of that name.
    fn put(&mut self, name: Self::Name, value: &'a [u8]) -> bool;
}

// What a line of a file brings.
#[derive(Clone, Copy)]
pub enum Found<E> {
    // An entry is read whole.
    Entry(E),
    // The line at that byte has no name that is known, or a value that is there already.
    BadLine(usize),
    // Nothing that has to be looked at yet.
    Nothing,
}

// The entries of a file's text, read line by line. A blank line, a section's line or the text's end ends an entry.
#[derive(Drop)]
pub struct Entries<'a, E> {
    text: &'a [u8],
    // The lines that are left.
    rest: Option<&'a [u8]>,
    // The entry whose lines are being read, up to the text's end.
    entry: Option<E>,
}

impl<'a, E: Entry<'a>> Entries<'a, E> {
    pub fn new(text: &'a [u8]) -> Self
        ensures { starts_at result text.now }
    {
        Entries {
            text,
            rest: Some(text),
            entry: Some(E::begin(None)),
        }
    }
}

// An entry that is read whole, where there is one; the next begins.
fn whole<'a, E: Entry<'a>>(entry: &mut E, section: Option<E::Section>) -> Found<E>
    ensures { IsWhole E.empty entry.old result }
{
    let found = if entry.is_empty() {
        Found::Nothing
    } else {
        Found::Entry(*entry)
    };
    *entry = E::begin(section);
    found
}

// What a line brings, which begins at byte `at`, and the entry after it.
fn take<'a, E: Entry<'a>>(entry: &mut E, line: Line<'a, E::Section, E::Name>, at: usize) -> Found<E>
    ensures brings { Brings E.empty entry.old at result }
    ensures takes { Takes E.empty line.entry at entry.old result entry.new }
{
    match line {
        Line::Comment => Found::Nothing,
        Line::Blank => {
            let section = entry.section();
            whole(entry, section)
        }
        Line::Section(section) => whole(entry, Some(section)),
        Line::Value(name, value) => {
            if entry.put(name, value) {
                Found::Nothing
            } else {
                Found::BadLine(at)
            }
        }
        Line::Unknown => Found::BadLine(at),
    }
}

// Where a text's first line ends, if at a line feed.
fn line_feed(text: &[u8]) -> Option<usize>
    ensures value { result ≡ position (λ c. c == 10) text.now }
    ensures within { IfSome result (λ n. n < length text.now) }
{
    text.iter().position(|c| *c == b'\n')
}

// A text's first line without a carriage return at its end, and the lines after it, where there are any.
fn split_line(text: &[u8]) -> (&[u8], Option<&[u8]>)
    ensures line { result.0.now ≡ trimmed (first_line text.now) }
    ensures rest { IsRest text.now result.1 }
{
    match line_feed(text) {
        Some(n) => (text_words::without_return(&text[..n]), Some(&text[n + 1..])),
        None => (text_words::without_return(text), None),
    }
}

impl<'a, E: Entry<'a>> Iterator for Entries<'a, E> {
    type Item = Found<E>;

    ghost next_gives = { Gives E.empty };

    ghost remaining = { λ s. at_most (lines_left s) };

    // The entry is worked on in place: a copy out and in again for each line takes longer than the line.
    fn next(&mut self) -> Option<Found<E>> {
        let Some(rest) = self.rest else {
            let mut entry = self.entry.take()?;
            return Some(whole(&mut entry, None));
        };
        let entry = self.entry.as_mut()?;
        let at = self.text.len().saturating_sub(rest.len());
        let (line, rest) = split_line(rest);
        self.rest = rest;
        Some(take(entry, E::line(line), at))
    }
}
