// The lengths of a call of AES-256 in CBC mode or of CBC-MAC from C or Rust, and the number that a call with a wrong one is refused with.
// Every length is in bytes: a key has 32, an IV, a head block and a MAC 16 each, the data a number of whole blocks of 16.
// Proved: each number is the definition's (specs/Calls.antt has them), for all lengths.
#![tactic(auto)]

ghost use Rattle.std.specs.Prelude.{◌≡◌, length};
ghost use Rattle.aes_calls.specs.Calls.{cbc_answer, mac_answer, seal_answer};

use aes_keys::KEY_BYTES;
use octets::BLOCK_BYTES;

pub const DONE: u8 = 0;

const WRONG_KEY_LENGTH: u8 = 1;

const WRONG_IV_LENGTH: u8 = 2;

const WRONG_DATA_LENGTH: u8 = 3;

const WRONG_MAC_LENGTH: u8 = 4;

// The answer to a call of CBC with a key, an IV and data of these lengths, in bytes.
#[tactic(auto, unfolding(crate::specs::Calls::cbc_answer))]
pub fn cbc_answer(key: usize, iv: usize, text: usize) -> u8
    ensures { result ≡ cbc_answer key iv text }
{
    if key != KEY_BYTES {
        return WRONG_KEY_LENGTH;
    }
    if iv != BLOCK_BYTES {
        return WRONG_IV_LENGTH;
    }
    if text % BLOCK_BYTES != 0 {
        return WRONG_DATA_LENGTH;
    }
    DONE
}

// The answer to a call of CBC-MAC with a key, data and room for the MAC of these lengths, in bytes.
#[tactic(auto, unfolding(crate::specs::Calls::mac_answer))]
pub fn mac_answer(key: usize, text: usize, room: usize) -> u8
    ensures { result ≡ mac_answer key text room }
{
    if key != KEY_BYTES {
        return WRONG_KEY_LENGTH;
    }
    if text == 0 {
        return WRONG_DATA_LENGTH;
    }
    if text % BLOCK_BYTES != 0 {
        return WRONG_DATA_LENGTH;
    }
    if room != BLOCK_BYTES {
        return WRONG_MAC_LENGTH;
    }
    DONE
}

// The answer to a call that encrypts and takes the MAC, with keys, IV, head block, data and room for the MAC of these lengths, in bytes.
#[tactic(auto, unfolding(crate::specs::Calls::seal_answer))]
pub fn seal_answer(
    key_bytes: usize,
    mac_key_bytes: usize,
    iv_bytes: usize,
    head_bytes: usize,
    text_bytes: usize,
    room_bytes: usize,
) -> u8
    ensures { result ≡ seal_answer key_bytes mac_key_bytes iv_bytes head_bytes text_bytes room_bytes }
{
    if key_bytes != KEY_BYTES {
        return WRONG_KEY_LENGTH;
    }
    if mac_key_bytes != KEY_BYTES {
        return WRONG_KEY_LENGTH;
    }
    if iv_bytes != BLOCK_BYTES {
        return WRONG_IV_LENGTH;
    }
    if head_bytes != BLOCK_BYTES {
        return WRONG_IV_LENGTH;
    }
    if text_bytes % BLOCK_BYTES != 0 {
        return WRONG_DATA_LENGTH;
    }
    if room_bytes != BLOCK_BYTES {
        return WRONG_MAC_LENGTH;
    }
    DONE
}

// The key that a slice of 32 bytes holds.
pub fn key_of(s: &[u8]) -> [u8; 32]
    requires { length s.now ≡ 32 }
    ensures { result ≡ s.now }
{
    *s.as_array().unwrap()
}
