// Runs the published vectors of SHA-256 and the standard's examples, and writes how many entries of each file passed.
// A message has whole bytes, a digest 32 bytes; in the files a message's length is in bits. They lie in the folder that the program is run in
// (data/).
// Proved: every function is safe and ends. What the code answers to the vectors is compared, not proved: that it is SHA-256 is proved in the
// crates below.
#![tactic(auto)]

ghost use Rattle.std.specs.Prelude.{◌≡◌, length};

mod entry;
mod trial;

use std::io;
use std::rt::Files;
use trial::{Tally, Trials};

const FILE_MAX_BYTES: usize = 16384;

// The digest of a million bytes 61, the third example of the standard's publisher.
const MILLION_DIGEST: [u8; 32] = [
    0xcd, 0xc7, 0x6e, 0x5c, 0x99, 0x14, 0xfb, 0x92, 0x81, 0xa1, 0xc7, 0xe2, 0x84, 0xd7, 0x3e, 0x67,
    0xf1, 0x80, 0x9a, 0x48, 0xa4, 0x97, 0x20, 0x0e, 0x04, 0x6d, 0x39, 0xcc, 0xc7, 0x11, 0x2c, 0xd0,
];

const MILLION: usize = 1000000;

fn million_bytes() -> [u8; MILLION]
    ensures { 1000000 ≡ length result }
{
    [b'a'; MILLION]
}

fn million_passes(rt: &impl Print) -> io::Result<bool> {
    let message = million_bytes();
    let expected = MILLION_DIGEST;
    let got = sha_hash::sha256(&message);
    trial::judge(rt, "a million bytes 61", &expected, &got)
}

// Tries every entry of the file of that name.
fn try_file<'a>(rt: &'a (impl Print + Files), name: &'a str) -> io::Result<Tally> {
    let mut trials = Trials {
        rt,
        name,
        tally: Tally::default(),
    };
    let mut buf = [0; FILE_MAX_BYTES];
    match vector_files::read_file(rt, name, &mut buf) {
        Ok(text) => trials.run(text)?,
        Err(fault) => {
            trials.tally.add_fault();
            println!(rt; "{name}: {fault}")?;
        }
    }
    Ok(trials.tally)
}

// The entries that passed, out of those that should be there.
fn say_passed(rt: &impl Print, name: &str, passed: u64, wanted: u64) -> io::Result<()> {
    println!(rt; "{name}: {passed} of {wanted}")
}

// One file and the entries that it should have. A file with another number of entries has a fault.
fn run(rt: &(impl Print + Files), name: &str, wanted: u64) -> io::Result<Tally> {
    let mut t = try_file(rt, name)?;
    say_passed(rt, name, t.entries.passed, wanted)?;
    if t.entries.found != wanted {
        println!(rt; "{name} has {} entries", t.entries.found)?;
        t.add_fault();
    }
    Ok(t)
}

fn say_total(rt: &impl Print, passed: u64, wanted: u64, faults: u64) -> io::Result<()> {
    say_passed(rt, "total", passed, wanted)?;
    println!(rt; "faults in the files: {faults}")?;
    if passed == wanted && faults == 0 {
        println!(rt; "Every vector passed.")
    } else {
        println!(rt; "FAILED: not every vector passed.")
    }
}

fn main(rt: HostRuntime) -> io::Result<()> {
    println!(&rt;
        "SHA-256, messages of whole bytes, digests of 32 bytes. An entry passes where the digest is its own."
    )?;
    let a = run(&rt, "FIPS180.rsp", 2)?;
    let b = run(&rt, "SHA256ShortMsg.rsp", 65)?;
    let m = u64::from(million_passes(&rt)?);
    say_passed(&rt, "a million bytes 61", m, 1)?;
    let passed = a.entries.passed.wrapping_add(b.entries.passed);
    let faults = a.faults.wrapping_add(b.faults);
    say_total(&rt, passed.wrapping_add(m), 68, faults)
}
