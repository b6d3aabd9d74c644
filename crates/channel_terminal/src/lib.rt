// The terminal's end of the channel: what SEAL and UNSEAL answer, and SEAL, which makes a whole sealed command (RULES 8.6).
// Every length, Lc included, is in bytes.
// Proved: refusal, count, next session and every byte of the buffer are the definition's, for every input; nothing is required.
#![tactic(auto)]

ghost use Rattle.std.specs.Prelude.{◌≡◌, [], ◌∷◌, length};
ghost use Rattle.channel_rules.specs.Terminal.{seal_out};
ghost use Rattle.channel_terminal.specs.Did.{Did};

use channel_rules::{MAC_BYTES, Session};
use refusals::{
    REFUSAL_DATA_LONG, REFUSAL_NONE, REFUSAL_ROOM, SEAL_DATA_MAX_BYTES, SEAL_ROOM_BYTES,
};

// CLA INS P1 P2 and Lc: what comes before the field, in bytes.
const FRONT_BYTES: usize = 5;

// What an operation answers: the refusal's number or 0, how many bytes it wrote from the buffer's start, and the next session.
// A struct and no Result: `Did` says count and session of a refusal too, and C takes the refusal as this number.
#[repr(C)]
#[derive(Clone, Copy)]
pub struct Outcome {
    pub refusal: u8,
    pub count: usize,
    pub session: Session,
}

impl Outcome {
    // What an operation that is refused answers: nothing was written, and the session is as it was.
    pub fn refused(s: Session, refusal: u8) -> Outcome
        ensures refusal { result.refusal ≡ refusal }
        ensures count { result.count ≡ 0 }
        ensures session { result.session ≡ s }
    {
        Outcome {
            refusal,
            count: 0,
            session: s,
        }
    }
}

// SEAL: the header CLA INS P1 P2 and at most 223 bytes of data to the whole sealed command, without Le.
#[tactic(auto, unfolding(channel_rules::specs::Terminal::seal_out))]
pub fn seal(s: Session, cla: u8, ins: u8, p1: u8, p2: u8, plain: &[u8], buf: &mut [u8]) -> Outcome
    ensures { Did (seal_out s (cla ∷ ins ∷ p1 ∷ p2 ∷ []) plain.now (length buf.old)) result
        buf.old buf.new }
{
    if buf.len() < SEAL_ROOM_BYTES {
        return Outcome::refused(s, REFUSAL_ROOM);
    }
    if SEAL_DATA_MAX_BYTES < plain.len() {
        return Outcome::refused(s, REFUSAL_DATA_LONG);
    }
    octets_lent::put(buf, FRONT_BYTES + MAC_BYTES, plain);
    let padded = aes_padding::padded_bytes(plain.len());
    let head = channel_heads::command_head([cla, ins, p1, p2], padded);
    let mac = channel_seal::seal_field(s, head, &mut buf[FRONT_BYTES..], plain.len());
    let lc = (MAC_BYTES + padded) as u8;
    let front = [cla, ins, p1, p2, lc];
    octets::put(buf, 0, &front);
    Outcome {
        refusal: REFUSAL_NONE,
        count: FRONT_BYTES + MAC_BYTES + padded,
        session: s.after(mac),
    }
}
