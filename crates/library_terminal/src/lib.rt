// SEAL, UNSEAL, WALK and ENTROPY for callers in C and Rust (RULES 3.8; include/treadlewisp.h). The session is lent, and changed where it lies.
// Every length, room, count and offset is in bytes (WALK counts fields); a refusal 0 means that there was none.
// Proved: the promises of the operations by value, over the session at entry and at exit; refused, it is as it was.
#![tactic(auto)]

ghost use Rattle.std.specs.Prelude.{◌≡◌, length};
ghost use Rattle.channel_rules.specs.Terminal.{seal_out, unseal_out};
ghost use Rattle.channel_terminal.specs.Did.{Did};
ghost use Rattle.template_walk.specs.Walk.{WALK};
ghost use Rattle.phrase_reverse.specs.Reversed.{Reversed};
ghost use Rattle.library_calls.specs.Left.{session_outcome, walk_out_of, entropy_of};

use channel_rules::Session;
use library_calls::{Counted, WalkTold};

// SEAL, the terminal's end of the channel.
#[unsafe(no_mangle)]
pub extern "C" fn tw_seal(
    session: &mut Session,
    header: &[u8; 4],
    plain: &[u8],
    buf: &mut [u8],
) -> Counted
    ensures { Did (seal_out session.old header.now plain.now (length buf.old))
        (session_outcome result session.new) buf.old buf.new }
{
    let found = *session;
    let told = library_seal::sealed(found, header, plain, buf);
    *session = told.session;
    Counted {
        refusal: told.refusal,
        count: told.count,
    }
}

// UNSEAL, the terminal's end of the channel.
#[unsafe(no_mangle)]
pub extern "C" fn tw_unseal(session: &mut Session, response: &[u8], buf: &mut [u8]) -> Counted
    ensures { Did (unseal_out session.old response.now (length buf.old))
        (session_outcome result session.new) buf.old buf.new }
{
    let found = *session;
    let told = channel_unseal::unseal(found, response, buf);
    *session = told.session;
    Counted {
        refusal: told.refusal,
        count: told.count,
    }
}

// WALK: the count is of fields that are not templates, and the fault offset that of the faulty field's tag.
#[unsafe(no_mangle)]
pub extern "C" fn tw_walk(input: &[u8]) -> WalkTold
    ensures { walk_out_of result ≡ WALK input.now }
{
    let w = template_walk::walk(input);
    let refusal = template_walk::refusal(w);
    let count = template_walk::count(w);
    let fault_offset = template_walk::fault_offset(w);
    WalkTold {
        refusal,
        count,
        fault_offset,
    }
}

// ENTROPY: from the bytes of a recovery phrase's word numbers back to its entropy (RULES 7.12).
#[unsafe(no_mangle)]
pub extern "C" fn tw_entropy(words: &[u8], buf: &mut [u8]) -> Counted
    ensures { Reversed words.now (entropy_of result) buf.old buf.new }
{
    let told = phrase_reverse::entropy_of(words, buf);
    let refusal = told.refusal;
    let count = told.count;
    Counted { refusal, count }
}
