// The rulebook: what a command is, and the definitions of all that the card does with one, from its bytes to its answer.
// Every length and count is in bytes. The rules are in specs/; here are the types and the constants that the code and the rules share.
// A new command has one row in specs/Rows.antt, one rule in specs/Commands.antt, and its name in the two enums below.
#![tactic(auto)]

use card::Card;

// The status words (RULES 5.8), as one number of two bytes, SW1 SW2.
pub const SUCCESS: u16 = 0x9000;

// Tries left: the low digit is their number.
pub const TRIES_LEFT: u16 = 0x63C0;

pub const WRONG_LENGTH: u16 = 0x6700;

pub const SECURITY_NOT_MET: u16 = 0x6982;

pub const REFERENCE_INVALID: u16 = 0x6984;

pub const CONDITIONS_NOT_MET: u16 = 0x6985;

pub const WRONG_DATA: u16 = 0x6A80;

pub const NOT_FOUND: u16 = 0x6A82;

pub const NO_SPACE: u16 = 0x6A84;

pub const WRONG_PARAMETERS: u16 = 0x6A86;

pub const UNKNOWN_INSTRUCTION: u16 = 0x6D00;

pub const UNKNOWN_CLASS: u16 = 0x6E00;

// The class bytes: of SELECT, and of all other instructions.
pub const CLASS_SELECT: u8 = 0x00;

pub const CLASS: u8 = 0x80;

// The instruction bytes (RULES 6.1).
pub const INS_SELECT: u8 = 0xA4;

pub const INS_INIT: u8 = 0xFE;

pub const INS_OPEN: u8 = 0x10;

pub const INS_MUTUAL: u8 = 0x11;

pub const INS_PAIR: u8 = 0x12;

pub const INS_UNPAIR: u8 = 0x13;

pub const INS_STATUS: u8 = 0xF2;

pub const INS_VERIFY: u8 = 0x20;

pub const INS_CHANGE: u8 = 0x21;

pub const INS_UNBLOCK: u8 = 0x22;

pub const INS_LOAD: u8 = 0xD0;

pub const INS_DERIVE: u8 = 0xD1;

pub const INS_REMOVE: u8 = 0xD3;

pub const INS_SET_PINLESS: u8 = 0xC1;

pub const INS_SIGN: u8 = 0xC0;

pub const INS_EXPORT: u8 = 0xC2;

pub const INS_SET_NDEF: u8 = 0xF3;

pub const INS_MNEMONIC: u8 = 0xD2;

// The fault offset where there is none: opened data have at most 223 bytes.
pub const NO_FAULT: usize = 255;

// The most data that a command's response has, in bytes: with the status word it can be sealed.
pub const RESPONSE_MAX_BYTES: usize = 221;

// What the class and the instruction byte name.
#[derive(Clone, Copy)]
pub enum Instruction {
    Select,
    Init,
    Open,
    Mutual,
    Pair,
    Unpair,
    Status,
    Verify,
    Change,
    Unblock,
    Load,
    Derive,
    Remove,
    SetPinless,
    Sign,
    Export,
    SetNdef,
    Mnemonic,
}

// Where an instruction is offered: on every card, on one before INIT, or on one after INIT.
#[derive(Clone, Copy)]
pub enum Offer {
    Always,
    BeforeInit,
    AfterInit,
}

// What an instruction gives up at steps 5 and 6: nothing; the channel, before both; the channel in stage 1, by an error; or, with P1 01, the
// pending pairing, by an error.
#[derive(Clone, Copy)]
pub enum Loss {
    Nothing,
    Channel,
    HalfOpen,
    Pending,
}

// Why a class and an instruction byte name no instruction of the card: which of the two checks of step 3 fails.
#[derive(Clone, Copy)]
pub enum Unnamed {
    WrongClass,
    Unknown,
}

// GET STATUS, P1 00 and 01: the tries and whether there is a key; the current path.
#[derive(Clone, Copy)]
pub enum StatusKind {
    Application,
    Path,
}

// CHANGE, P1 00, 01 and 02: which secret.
#[derive(Clone, Copy)]
pub enum SecretKind {
    Pin,
    Puk,
    Pairing,
}

// LOAD, P1 01, 02 and 03: a keypair; a keypair with its chain code; a seed of 64 bytes.
#[derive(Clone, Copy)]
pub enum KeyForm {
    Keypair,
    Extended,
    Seed,
}

// EXPORT, P1 00, 01 and 02: the current path; the given one; the given one, which then becomes current.
#[derive(Clone, Copy)]
pub enum ExportPath {
    Current,
    Given,
    MakeCurrent,
}

// EXPORT, P2 00 and 01: the private key and the public key; the public key alone.
#[derive(Clone, Copy)]
pub enum ExportPart {
    PrivateAndPublic,
    PublicOnly,
}

// GENERATE MNEMONIC, P1 04 to 08: a recovery phrase of 12, 15, 18, 21 or 24 words.
#[derive(Clone, Copy)]
pub enum Phrase {
    Words12,
    Words15,
    Words18,
    Words21,
    Words24,
}

// A command whose P1 and P2 are listed. OPEN and UNPAIR carry the slot's index; GET STATUS, CHANGE, LOAD and GENERATE MNEMONIC the choice that
// P1 makes; EXPORT those that P1 and P2 make.
#[derive(Clone, Copy)]
pub enum Command {
    Select,
    Init,
    Open(u8),
    Mutual,
    PairFirst,
    PairFinal,
    Unpair(u8),
    Status(StatusKind),
    Verify,
    Change(SecretKind),
    Unblock,
    Load(KeyForm),
    Derive,
    Remove,
    SetPinless,
    Sign,
    Export(ExportPath, ExportPart),
    SetNdef,
    Mnemonic(Phrase),
}

// A supply: its kind, or 0 for none; how many bytes it has; and whether its first byte is a flag.
#[derive(Clone, Copy)]
pub struct Supply {
    pub kind: u8,
    pub bytes: usize,
    pub flagged: bool,
}

// Step 6: the supply that is read where all checks hold, or the status word of the first check that does not.
pub type Verdict = Result<Supply, u16>;

// What a command's function answers: the status word, how many bytes of response data it wrote from the buffer's start, and the next card.
#[derive(Clone, Copy)]
pub struct Replied {
    pub status: u16,
    pub count: usize,
    pub card: Card,
}

// What ASK answers: the refusal's number or 0, the kind of supply or 0, and how many bytes it wrote from the buffer's start.
#[repr(C)]
#[derive(Clone, Copy)]
pub struct Asked {
    pub refusal: u8,
    pub kind: u8,
    pub count: usize,
}

// What ANSWER answers: the refusal's number or 0, how many bytes it wrote from the buffer's start, the fault offset in bytes or NO_FAULT, and
// the next card.
#[repr(C)]
#[derive(Clone, Copy)]
pub struct Answered {
    pub refusal: u8,
    pub count: usize,
    pub fault_offset: usize,
    pub card: Card,
}
