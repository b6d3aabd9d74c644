// UNSEAL, the terminal's end of the channel for a response: its plaintext, the inner status word included (RULES 8.7).
// Every length is in bytes.
// Proved: refusal, count, next session and every byte of the buffer are the definition's, for every input; nothing is required.
#![tactic(auto)]

ghost use Rattle.std.specs.Prelude.{◌≡◌, ◌≤◌, length};
ghost use Rattle.refusals.specs.Refusals.{unseal_room};
ghost use Rattle.channel_rules.specs.Message.{response_head, open_field};
ghost use Rattle.channel_rules.specs.Terminal.{unsealed, unseal_out};
ghost use Rattle.channel_terminal.specs.Did.{Did};

use channel_open::CIPHERTEXT_MAX_BYTES;
use channel_rules::{MAC_BYTES, Session};
use channel_seal::PLAIN_SUCCESS;
use channel_terminal::Outcome;
use refusals::{REFUSAL_NONE, REFUSAL_NOT_GENUINE, REFUSAL_ROOM, UNSEAL_ROOM_BYTES};

// Opens the field of a response that ends in 9000, and writes its plaintext, two bytes or more, from the buffer's start.
fn unseal_field(s: Session, field: &[u8], buf: &mut [u8]) -> Outcome
    requires { unseal_room ≤ length buf.old }
    ensures { Did (unsealed s field.now (open_field s response_head field.now)) result
        buf.old buf.new }
{
    let mut plain = [0u8; CIPHERTEXT_MAX_BYTES];
    let Some(count) = channel_open::open_response(s, field, &mut plain) else {
        return Outcome::refused(s, REFUSAL_NOT_GENUINE);
    };
    if count < 2 {
        return Outcome::refused(s, REFUSAL_NOT_GENUINE);
    }
    octets::put(buf, 0, &plain[0..count]);
    let mac = octets::block(&field[0..MAC_BYTES]);
    Outcome {
        refusal: REFUSAL_NONE,
        count,
        session: s.after(mac),
    }
}

// UNSEAL: a response to its plaintext, the inner status word included.
#[tactic(auto, unfolding(channel_rules::specs::Terminal::unseal_out))]
pub fn unseal(s: Session, response: &[u8], buf: &mut [u8]) -> Outcome
    ensures { Did (unseal_out s response.now (length buf.old)) result buf.old buf.new }
{
    if buf.len() < UNSEAL_ROOM_BYTES {
        return Outcome::refused(s, REFUSAL_ROOM);
    }
    let Some(field) = response.strip_suffix(&PLAIN_SUCCESS) else {
        return Outcome::refused(s, REFUSAL_NOT_GENUINE);
    };
    unseal_field(s, field, buf)
}
