// AES-256 by the engine from tables for callers in C and Rust, on slices of any length: CBC-MAC, and CBC encryption with the MAC over it.
// A key has 32 bytes, an IV, a head block and a MAC 16 bytes, the data whole blocks of 16 bytes; a call with another length is refused with a
// number (crate `aes_calls`) and changes nothing.
// Proved, for every call: the number, and every byte of the caller's buffers, are the definition's, as with the plain engine.
#![tactic(auto)]

ghost use Rattle.std.specs.Prelude.{◌≡◌, ◌++◌, length};
ghost use Rattle.aes_rules.specs.Aes.{aes256};
ghost use Rattle.aes_cbc.specs.Mode.{cbc_encrypt, cbc_mac};
ghost use Rattle.aes_calls.specs.Calls.{mac_answer, seal_answer, Did};

use aes_calls::{DONE, key_of, mac_answer, seal_answer};
use octets::BLOCK_BYTES;

// CBC-MAC of the text, written to `mac`.
#[unsafe(no_mangle)]
pub extern "C" fn tw_cbc_mac_by_tables(key: &[u8], text: &[u8], mac: &mut [u8]) -> u8
    ensures { Did (mac_answer (length key.now) (length text.now) (length mac.old))
        (cbc_mac (aes256 key.now) text.now)
        result mac.old mac.new }
{
    let answer = mac_answer(key.len(), text.len(), mac.len());
    if answer != DONE {
        return answer;
    }
    let k = key_of(key);
    let head = octets::block(&text[..BLOCK_BYTES]);
    let m = aes_word_mac::cbc_mac(&k, head, &text[BLOCK_BYTES..]);
    octets::put(mac, 0, &m);
    DONE
}

// CBC encryption of buf, in place, under `key` and the IV; the CBC-MAC under `mac_key` of the head block and the ciphertext joined is
// written to `mac`.
#[unsafe(no_mangle)]
pub extern "C" fn tw_cbc_encrypt_and_mac(
    key: &[u8],
    iv: &[u8],
    mac_key: &[u8],
    head: &[u8],
    buf: &mut [u8],
    mac: &mut [u8],
) -> u8
    ensures did { Did (seal_answer (length key.now) (length mac_key.now) (length iv.now) (length head.now) (length buf.old) (length mac.old))
        (cbc_encrypt (aes256 key.now) iv.now buf.old)
        result buf.old buf.new }
    ensures did_2 { Did (seal_answer (length key.now) (length mac_key.now) (length iv.now) (length head.now) (length buf.old) (length mac.old))
        (cbc_mac (aes256 mac_key.now) (head.now ++ cbc_encrypt (aes256 key.now) iv.now buf.old))
        result mac.old mac.new }
{
    let answer = seal_answer(
        key.len(),
        mac_key.len(),
        iv.len(),
        head.len(),
        buf.len(),
        mac.len(),
    );
    if answer != DONE {
        return answer;
    }
    let k = key_of(key);
    let l = key_of(mac_key);
    let first = octets::block(iv);
    let h = octets::block(head);
    let m = aes_word_seal::cbc_encrypt_and_mac(&k, first, &l, h, buf);
    octets::put(mac, 0, &m);
    DONE
}
