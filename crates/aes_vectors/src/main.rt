// Runs the published vectors of AES-256 in ECB and CBC, both directions and encryption by both engines, and writes how many entries of each file passed.
// Keys have 32 bytes, blocks 16 bytes. The files lie in the folder that the program is run in (data/).
// Proved: every function is safe and ends. What the engine answers to the vectors is compared, not proved: that it is AES-256 is proved
// in the crates below.
#![tactic(auto)]

mod entry;
mod trial;

use entry::Section;
use std::ops::Add;
use std::rt::Files;
use std::{fmt, io};
use trial::{Mode, Tally, Trials};

const FILE_MAX_BYTES: usize = 262144;

// One file, its mode, and the entries that its two sections should have.
#[derive(Clone, Copy)]
struct Vectors {
    name: &'static str,
    mode: Mode,
    encrypt: u64,
    decrypt: u64,
}

impl Vectors {
    fn new(name: &'static str, mode: Mode, encrypt: u64, decrypt: u64) -> Self {
        Vectors {
            name,
            mode,
            encrypt,
            decrypt,
        }
    }
}

// The entries that passed and that should be there, and the faults: files and lines that cannot be read, and sections with another
// number of entries than they should have.
#[derive(Clone, Copy, Default)]
struct Sum {
    passed: u64,
    wanted: u64,
    faults: u64,
}

impl Add for Sum {
    type Output = Sum;

    fn add(self, other: Sum) -> Sum {
        Sum {
            passed: self.passed.wrapping_add(other.passed),
            wanted: self.wanted.wrapping_add(other.wanted),
            faults: self.faults.wrapping_add(other.faults),
        }
    }
}

// How many entries of a section passed, out of how many there should be.
#[derive(Clone, Copy)]
struct Passed {
    section: Section,
    passed: u64,
    wanted: u64,
}

impl fmt::Display for Passed {
    fn fmt<W: fmt::Write>(&self, f: &mut fmt::Formatter<W>) -> fmt::Result {
        let Passed {
            section,
            passed,
            wanted,
        } = self;
        if *wanted == 0 {
            write!(f, "{section}       none")
        } else {
            write!(f, "{section} {passed:>3} of {wanted:>3}")
        }
    }
}

// Tries every entry of the file.
fn try_file(rt: &(impl Print + Files), v: &Vectors) -> io::Result<Tally> {
    let mut trials = Trials {
        rt,
        name: v.name,
        mode: v.mode,
        tally: Tally::default(),
    };
    let mut buf = [0; FILE_MAX_BYTES];
    match vector_files::read_file(rt, v.name, &mut buf) {
        Ok(text) => trials.run(text)?,
        Err(fault) => {
            trials.tally.add_fault();
            println!(rt; "{}: {fault}", v.name)?;
        }
    }
    Ok(trials.tally)
}

// Whether a section has as many entries as it should; where not, that is reported.
fn is_whole(
    rt: &impl Print,
    name: &str,
    section: Section,
    found: u64,
    wanted: u64,
) -> io::Result<bool> {
    if found == wanted {
        return Ok(true);
    }
    println!(rt; "{name}: {section} has {found} entries and should have {wanted}")?;
    Ok(false)
}

fn run(rt: &(impl Print + Files), v: &Vectors) -> io::Result<Sum> {
    let mut t = try_file(rt, v)?;
    if !is_whole(rt, v.name, Section::Encrypt, t.encrypt.found, v.encrypt)? {
        t.add_fault();
    }
    if !is_whole(rt, v.name, Section::Decrypt, t.decrypt.found, v.decrypt)? {
        t.add_fault();
    }
    let encrypt = Passed {
        section: Section::Encrypt,
        passed: t.encrypt.passed,
        wanted: v.encrypt,
    };
    let decrypt = Passed {
        section: Section::Decrypt,
        passed: t.decrypt.passed,
        wanted: v.decrypt,
    };
    println!(rt; "{:<20}   {encrypt}   {decrypt}", v.name)?;
    Ok(Sum {
        passed: t.encrypt.passed.wrapping_add(t.decrypt.passed),
        wanted: v.encrypt.wrapping_add(v.decrypt),
        faults: t.faults,
    })
}

fn say_total(rt: &impl Print, sum: Sum) -> io::Result<()> {
    let Sum {
        passed,
        wanted,
        faults,
    } = sum;
    println!(rt;
        "{:<20}   {passed} of {wanted} entries passed; faults in the files: {faults}",
        "total"
    )?;
    if passed == wanted && faults == 0 {
        println!(rt; "Every vector passed.")
    } else {
        println!(rt; "FAILED: not every vector passed.")
    }
}

fn main(rt: HostRuntime) -> io::Result<()> {
    println!(&rt;
        "AES-256, keys of 32 bytes, blocks of 16 bytes. An entry passes where encrypting gives its ciphertext"
    )?;
    println!(&rt; "and decrypting gives back its plaintext. Entries that passed:")?;
    let files = [
        Vectors::new("FIPS197-C3.rsp", Mode::Ecb, 1, 1),
        Vectors::new("SP800-38A-F25.rsp", Mode::Cbc, 1, 0),
        Vectors::new("SP800-38A-F26.rsp", Mode::Cbc, 0, 1),
        Vectors::new("ECBGFSbox256.rsp", Mode::Ecb, 5, 5),
        Vectors::new("ECBKeySbox256.rsp", Mode::Ecb, 16, 16),
        Vectors::new("ECBVarKey256.rsp", Mode::Ecb, 256, 256),
        Vectors::new("ECBVarTxt256.rsp", Mode::Ecb, 128, 128),
        Vectors::new("CBCGFSbox256.rsp", Mode::Cbc, 5, 5),
        Vectors::new("CBCKeySbox256.rsp", Mode::Cbc, 16, 16),
        Vectors::new("CBCVarKey256.rsp", Mode::Cbc, 256, 256),
        Vectors::new("CBCVarTxt256.rsp", Mode::Cbc, 128, 128),
    ];
    let mut sum = Sum::default();
    for v in &files {
        sum = sum + run(&rt, v)?;
    }
    say_total(&rt, sum)
}
