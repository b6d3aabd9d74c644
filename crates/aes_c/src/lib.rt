// AES-256 in CBC mode and CBC-MAC for callers in C and Rust: the functions of the crate `aes_cbc`, on slices of any length.
// A key has 32 bytes, an IV and a MAC 16 bytes, the data whole blocks of 16 bytes; a call with another length is refused with a number
// (crate `aes_calls`) and changes nothing.
// Proved, for every call: the number, and every byte of the caller's buffer, are the definition's.
#![tactic(auto)]

ghost use Rattle.std.specs.Prelude.{◌≡◌, length};
ghost use Rattle.aes_rules.specs.Aes.{aes256, inv_aes256};
ghost use Rattle.aes_cbc.specs.Mode.{cbc_encrypt, cbc_decrypt, cbc_mac};
ghost use Rattle.aes_calls.specs.Calls.{cbc_answer, mac_answer, Did};

use aes_calls::{DONE, cbc_answer, key_of, mac_answer};
use octets::BLOCK_BYTES;

// CBC encryption of buf, in place.
#[unsafe(no_mangle)]
pub extern "C" fn tw_cbc_encrypt(key: &[u8], iv: &[u8], buf: &mut [u8]) -> u8
    ensures { Did (cbc_answer (length key.now) (length iv.now) (length buf.old))
        (cbc_encrypt (aes256 key.now) iv.now buf.old)
        result buf.old buf.new }
{
    let answer = cbc_answer(key.len(), iv.len(), buf.len());
    if answer != DONE {
        return answer;
    }
    let k = key_of(key);
    aes_cbc::cbc_encrypt(&k, octets::block(iv), buf);
    DONE
}

// CBC decryption of buf, in place.
#[unsafe(no_mangle)]
pub extern "C" fn tw_cbc_decrypt(key: &[u8], iv: &[u8], buf: &mut [u8]) -> u8
    ensures { Did (cbc_answer (length key.now) (length iv.now) (length buf.old))
        (cbc_decrypt (inv_aes256 key.now) iv.now buf.old)
        result buf.old buf.new }
{
    let answer = cbc_answer(key.len(), iv.len(), buf.len());
    if answer != DONE {
        return answer;
    }
    let k = key_of(key);
    aes_cbc::cbc_decrypt(&k, octets::block(iv), buf);
    DONE
}

// CBC-MAC of the text, written to `mac`.
#[unsafe(no_mangle)]
pub extern "C" fn tw_cbc_mac(key: &[u8], text: &[u8], mac: &mut [u8]) -> u8
    ensures { Did (mac_answer (length key.now) (length text.now) (length mac.old))
        (cbc_mac (aes256 key.now) text.now)
        result mac.old mac.new }
{
    let answer = mac_answer(key.len(), text.len(), mac.len());
    if answer != DONE {
        return answer;
    }
    let k = key_of(key);
    let head = octets::block(&text[..BLOCK_BYTES]);
    let m = aes_cbc::cbc_mac(&k, head, &text[BLOCK_BYTES..]);
    octets::put(mac, 0, &m);
    DONE
}
