// One entry of a file: its texts read, the message hashed, and the digest compared.
// A length in the file is in bits and a multiple of 8; a message has up to 128 bytes, a digest 32 bytes.
ghost use Rattle.std.specs.Prelude.{◌≤◌};
ghost use Rattle.std.specs.Option.{IfSome};

use crate::entry::Entry;
use sha_hash::DIGEST_BYTES;
use std::io;
use text_hex::hex;
use text_print::Bytes;
use vector_files::{Count, Entries, Found};

const MESSAGE_MAX_BYTES: usize = 128;

// The length in bytes of a message that has so many bits, where it may have them.
fn message_bytes(bits: usize) -> Option<usize>
    ensures { IfSome result (λ n. n ≤ 128) }
{
    if bits % 8 == 0 && bits / 8 <= MESSAGE_MAX_BYTES {
        Some(bits / 8)
    } else {
        None
    }
}

// The message's bytes into all of `message`. A message of no bytes has the text 00.
fn read_message(text: &[u8], message: &mut [u8]) -> bool {
    if message.is_empty() {
        return hex::bytes(text) == Some([0u8]);
    }
    hex::read(text, message)
}

// The digest that an entry names, and the one that its message has.
#[derive(Clone, Copy)]
struct Digests {
    expected: [u8; DIGEST_BYTES],
    got: [u8; DIGEST_BYTES],
}

// The digests of an entry that is well formed.
fn digests_of(e: Entry) -> Option<Digests> {
    let n = message_bytes(text_decimal::number(e.bits?)?)?;
    let mut room = [0; MESSAGE_MAX_BYTES];
    let message = &mut room[..n];
    if !read_message(e.message?, message) {
        return None;
    }
    let expected = hex::bytes(e.digest?)?;
    let got = sha_hash::sha256(message);
    Some(Digests { expected, got })
}

// The entries of a file, and its faults: lines that are not understood.
#[derive(Clone, Copy, Default)]
pub struct Tally {
    pub entries: Count,
    pub faults: u64,
}

impl Tally {
    pub fn add_fault(&mut self) {
        self.faults = self.faults.wrapping_add(1);
    }
}

// Whether the digest is the one that was expected; where not, both are written.
pub fn judge(rt: &impl Print, name: &str, expected: &[u8], got: &[u8]) -> io::Result<bool> {
    if expected == got {
        return Ok(true);
    }
    println!(rt; "{name}: a wrong digest")?;
    println!(rt; "  expected {}", Bytes(expected))?;
    println!(rt; "  got {}", Bytes(got))?;
    Ok(false)
}

// The trials of one file's entries: what is wrong with one is written to standard output.
#[derive(Drop)]
pub struct Trials<'a, P> {
    pub rt: &'a P,
    pub name: &'a str,
    pub tally: Tally,
}

impl<'a, P: Print> Trials<'a, P> {
    // Whether an entry is well formed and its digest right; where not, that is reported.
    fn passes(&self, e: Entry) -> io::Result<bool> {
        let rt = self.rt;
        match digests_of(e) {
            Some(d) => judge(rt, self.name, &d.expected, &d.got),
            None => {
                println!(rt; "{}: an entry is malformed", self.name)?;
                Ok(false)
            }
        }
    }

    fn entry(&mut self, e: Entry) -> io::Result<()> {
        let passed = self.passes(e)?;
        self.tally.entries.add(passed);
        Ok(())
    }

    fn bad_line(&mut self, at: usize) -> io::Result<()> {
        self.tally.add_fault();
        let rt = self.rt;
        println!(rt; "{}: not understood, the line at byte {at}", self.name)
    }

    // Tries every entry of the file's text.
    pub fn run(&mut self, text: &[u8]) -> io::Result<()> {
        for found in Entries::<Entry>::new(text) {
            match found {
                Found::Entry(e) => self.entry(e)?,
                Found::BadLine(at) => self.bad_line(at)?,
                Found::Nothing => {}
            }
        }
        Ok(())
    }
}
