// One entry of a file: its texts read, enciphered by each of the two engines and deciphered, and compared.
// A key has 32 bytes, an IV 16 bytes, a text 16 to 64 bytes in whole blocks of 16 bytes.
ghost use Rattle.std.specs.Prelude.{◌≡◌, ◌≤◌, length};
ghost use Rattle.std.specs.Option.{IfSome};

use crate::entry::{Entry, Section};
use std::{fmt, io};
use text_hex::hex;
use text_print::Hex;
use vector_files::{Count, Entries, Found};

// A block of AES, in bytes.
const BLOCK_BYTES: usize = 16;

const TEXT_MAX_BYTES: usize = 64;

// Key and head block of the MAC that comes with it, which is not looked at here; unlike any key and IV of the files.
const OTHER_KEY: [u8; 32] = [0x5a; 32];

const OTHER_HEAD: [u8; 16] = [0xa5; 16];

#[derive(Clone, Copy)]
pub enum Mode {
    Ecb,
    Cbc,
}

// The engine that is tried, and its direction.
#[derive(Clone, Copy)]
enum Way {
    Encrypt,
    EncryptByTables,
    Decrypt,
}

impl fmt::Display for Way {
    fn fmt<W: fmt::Write>(&self, f: &mut fmt::Formatter<W>) -> fmt::Result {
        match self {
            Way::Encrypt => write!(f, "encrypting"),
            Way::EncryptByTables => write!(f, "encrypting by tables"),
            Way::Decrypt => write!(f, "decrypting"),
        }
    }
}

// What is wrong with an entry.
#[derive(Clone, Copy)]
enum Fault {
    Plaintext,
    Malformed,
    Answer(Way),
}

impl fmt::Display for Fault {
    fn fmt<W: fmt::Write>(&self, f: &mut fmt::Formatter<W>) -> fmt::Result {
        match self {
            Fault::Plaintext => write!(
                f,
                "the plaintext is missing or has another length than whole blocks of 16 bytes"
            ),
            Fault::Malformed => write!(f, "the entry is malformed"),
            Fault::Answer(way) => write!(f, "{way} gives a wrong answer"),
        }
    }
}

// A mode, with the IV that it takes.
#[derive(Clone, Copy)]
enum Chaining {
    Ecb,
    Cbc([u8; 16]),
}

impl Chaining {
    // An ECB entry has no IV, a CBC entry one of 16 bytes.
    fn new(mode: Mode, iv: Option<&[u8]>) -> Option<Self> {
        match (mode, iv) {
            (Mode::Ecb, None) => Some(Chaining::Ecb),
            (Mode::Cbc, Some(iv)) => Some(Chaining::Cbc(hex::bytes(iv)?)),
            _ => None,
        }
    }
}

// The length in bytes of a text that the entry may have.
fn text_bytes(mode: Mode, text: &[u8]) -> Option<usize>
    ensures { IfSome result (λ n. n ≤ 64) }
{
    let n = text.len() / 2;
    let fits = match mode {
        Mode::Ecb => n == BLOCK_BYTES,
        Mode::Cbc => 0 < n && n <= TEXT_MAX_BYTES && n % BLOCK_BYTES == 0,
    };
    if fits { Some(n) } else { None }
}

fn decrypt_block(key: &[u8; 32], block: [u8; 16]) -> [u8; 16] {
    let table = aes_bytes::sbox_table();
    let w = aes_keys::key_expansion(&table, key);
    let inverse = aes_bytes::inv_sbox_table();
    aes_decrypt::decrypt_block(&inverse, &w, block)
}

// A key, and a mode with its IV.
#[derive(Clone, Copy)]
struct Cipher {
    key: [u8; 32],
    chaining: Chaining,
}

impl Cipher {
    // Enciphers or deciphers one block.
    fn run_ecb(&self, way: Way, buf: &mut [u8]) {
        let Ok(block) = <[u8; 16]>::try_from(&*buf) else {
            return;
        };
        let answer = match way {
            Way::Encrypt => aes_engines::encrypt_plainly(&self.key, block),
            Way::EncryptByTables => aes_engines::encrypt_by_tables(&self.key, block),
            Way::Decrypt => decrypt_block(&self.key, block),
        };
        buf.copy_from_slice(&answer);
    }

    // Enciphers or deciphers whole blocks.
    fn run_cbc(&self, way: Way, iv: [u8; 16], buf: &mut [u8]) {
        if buf.len() % BLOCK_BYTES != 0 {
            return;
        }
        match way {
            Way::Encrypt => aes_cbc::cbc_encrypt(&self.key, iv, buf),
            Way::EncryptByTables => {
                aes_word_seal::cbc_encrypt_and_mac(&self.key, iv, &OTHER_KEY, OTHER_HEAD, buf);
            }
            Way::Decrypt => aes_cbc::cbc_decrypt(&self.key, iv, buf),
        }
    }

    // Puts what one way makes of `given` into `got`.
    fn run(&self, way: Way, given: &[u8], got: &mut [u8])
        requires { length given.now ≡ length got.old }
    {
        got.copy_from_slice(given);
        match self.chaining {
            Chaining::Ecb => self.run_ecb(way, got),
            Chaining::Cbc(iv) => self.run_cbc(way, iv, got),
        }
    }
}

// The cipher of an entry; its texts are put into the two slices, which have their length.
fn read(mode: Mode, e: Entry, plaintext: &mut [u8], ciphertext: &mut [u8]) -> Option<Cipher> {
    e.count?;
    let key = hex::bytes(e.key?)?;
    let chaining = Chaining::new(mode, e.iv)?;
    if hex::read(e.plaintext?, plaintext) && hex::read(e.ciphertext?, ciphertext) {
        Some(Cipher { key, chaining })
    } else {
        None
    }
}

// The entries of the two sections, and the faults of the file: lines that are not understood, and entries in no section.
#[derive(Clone, Copy, Default)]
pub struct Tally {
    pub encrypt: Count,
    pub decrypt: Count,
    pub faults: u64,
}

impl Tally {
    pub fn add_fault(&mut self) {
        self.faults = self.faults.wrapping_add(1);
    }

    fn add(&mut self, section: Option<Section>, passed: bool) {
        match section {
            Some(Section::Encrypt) => self.encrypt.add(passed),
            Some(Section::Decrypt) => self.decrypt.add(passed),
            None => self.add_fault(),
        }
    }
}

// The trials of one file's entries: what is wrong with one is written to standard output.
#[derive(Drop)]
pub struct Trials<'a, P> {
    pub rt: &'a P,
    pub name: &'a str,
    pub mode: Mode,
    pub tally: Tally,
}

impl<'a, P: Print> Trials<'a, P> {
    fn report(&self, e: Entry, fault: Fault) -> io::Result<()> {
        let rt = self.rt;
        let name = self.name;
        match e.section {
            Some(section) => print!(rt; "{name} {section} COUNT = ")?,
            None => print!(rt; "{name} [no section] COUNT = ")?,
        }
        rt.write_all(e.count.unwrap_or(b""))?;
        println!(rt; ": {fault}")
    }

    // Whether one way gave what was expected; where not, that is reported.
    fn judge(&self, e: Entry, way: Way, expected: &[u8], got: &[u8]) -> io::Result<bool> {
        if expected == got {
            return Ok(true);
        }
        let rt = self.rt;
        self.report(e, Fault::Answer(way))?;
        println!(rt; "  expected {} ({} bytes)", Hex(expected), expected.len())?;
        println!(rt; "  got      {} ({} bytes)", Hex(got), got.len())?;
        Ok(false)
    }

    // Tries an entry whose texts have the length of the three slices: both directions, and encryption by the tables.
    fn try_texts(
        &self,
        e: Entry,
        plaintext: &mut [u8],
        ciphertext: &mut [u8],
        got: &mut [u8],
    ) -> io::Result<bool>
        requires plaintext_len { length plaintext.old ≡ length got.old }
        requires ciphertext_len { length ciphertext.old ≡ length got.old }
    {
        let Some(cipher) = read(self.mode, e, plaintext, ciphertext) else {
            self.report(e, Fault::Malformed)?;
            return Ok(false);
        };
        cipher.run(Way::Encrypt, plaintext, got);
        let encrypts = self.judge(e, Way::Encrypt, ciphertext, got)?;
        cipher.run(Way::EncryptByTables, plaintext, got);
        let encrypts_by_tables = self.judge(e, Way::EncryptByTables, ciphertext, got)?;
        cipher.run(Way::Decrypt, ciphertext, got);
        let decrypts = self.judge(e, Way::Decrypt, plaintext, got)?;
        Ok(encrypts && encrypts_by_tables && decrypts)
    }

    // Whether an entry is well formed and right in both directions and by both engines; where not, that is reported.
    fn passes(&self, e: Entry) -> io::Result<bool> {
        let Some(n) = text_bytes(self.mode, e.plaintext.unwrap_or(b"")) else {
            self.report(e, Fault::Plaintext)?;
            return Ok(false);
        };
        let mut plaintext = [0; TEXT_MAX_BYTES];
        let mut ciphertext = [0; TEXT_MAX_BYTES];
        let mut got = [0; TEXT_MAX_BYTES];
        self.try_texts(e, &mut plaintext[..n], &mut ciphertext[..n], &mut got[..n])
    }

    fn entry(&mut self, e: Entry) -> io::Result<()> {
        let passed = self.passes(e)?;
        self.tally.add(e.section, passed);
        Ok(())
    }

    fn bad_line(&mut self, at: usize) -> io::Result<()> {
        self.tally.add_fault();
        let rt = self.rt;
        println!(rt;
            "{}: the line at byte {at} has no name that is known, or a value that is there already",
            self.name
        )
    }

    // Tries every entry of the file's text.
    pub fn run(&mut self, text: &[u8]) -> io::Result<()> {
        for found in Entries::<Entry>::new(text) {
            match found {
                Found::Entry(e) => self.entry(e)?,
                Found::BadLine(at) => self.bad_line(at)?,
                Found::Nothing => {}
            }
        }
        Ok(())
    }
}
