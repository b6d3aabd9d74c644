// SHA-256 for callers in C and Rust: the function of the crate `sha_hash`, on a message of any length, into the caller's 32 bytes.
// Lengths are in bytes; a call with room for another number of bytes than 32 is refused with a number (specs/Calls.antt has them) and changes
// nothing.
// Proved, for every call: the number, and every byte of the caller's buffer, are the definition's.
#![tactic(auto)]

ghost use Rattle.std.specs.Prelude.{◌≡◌, length};
ghost use Rattle.sha_rules.specs.Hash.{sha256};
ghost use Rattle.sha_c.specs.Calls.{hash_answer, Did};

use sha_hash::DIGEST_BYTES;

const DONE: u8 = 0;

const WRONG_DIGEST_LENGTH: u8 = 1;

// SHA-256 of the message, written to `digest`.
#[unsafe(no_mangle)]
pub extern "C" fn tw_sha256(message: &[u8], digest: &mut [u8]) -> u8
    ensures { Did (hash_answer (length digest.old)) (sha256 message.now) result digest.old
        digest.new }
{
    if digest.len() != DIGEST_BYTES {
        return WRONG_DIGEST_LENGTH;
    }
    let d = sha_hash::sha256(message);
    octets::put(digest, 0, &d);
    DONE
}
