// Sealing of a field, which both ends of the channel share, and of a response, by the card.
// Every length is in bytes: a field is a MAC of 16 with the ciphertext directly after it, 32 to 240 in all.
// Proved: a field and a response are sealed as the definitions say, for every session and every content.
#![tactic(auto)]

ghost use Rattle.std.specs.Prelude.{◌≡◌, [], ◌∷◌, ◌++◌, ◌+◌, ◌≤◌, length};
ghost use Rattle.refusals.specs.Refusals.{answer_room};
ghost use Rattle.aes_padding.specs.Padding.{padded_bytes};
ghost use Rattle.channel_seal.specs.Promise.{FieldSealed, ResponseSealed};

use channel_heads::response_head;
use channel_rules::{MAC_BYTES, Session};

// The status word of success, which follows a sealed response in the clear.
pub const PLAIN_SUCCESS: [u8; 2] = [0x90, 0x00];

// A sealed response: how many bytes it has, and the session of the end that sealed it.
#[derive(Clone, Copy)]
pub struct Response {
    pub count: usize,
    pub session: Session,
}

// Seals the data_bytes bytes that begin MAC_BYTES into buf: they are padded and enciphered in their place, in the part of buf that is
// lent to the CBC routine, which gives the MAC over head and ciphertext; that is written in front of them. The answer is the MAC.
pub fn seal_field(s: Session, head: [u8; 16], buf: &mut [u8], data_bytes: usize) -> [u8; 16]
    requires { 16 + padded_bytes data_bytes ≤ length buf.old }
    ensures { FieldSealed s head data_bytes buf.old result buf.new }
{
    let padded = aes_padding::pad_in_place(&mut buf[MAC_BYTES..], data_bytes);
    let end = MAC_BYTES + padded;
    let enc_key = s.enc_key;
    let iv = s.iv;
    let mac_key = s.mac_key;
    let mac = aes_word_seal::cbc_encrypt_and_mac(
        &enc_key,
        iv,
        &mac_key,
        head,
        &mut buf[MAC_BYTES..end],
    );
    octets::put(buf, 0, &mac);
    mac
}

// Seals a response's data and status word, SW1 SW2, together from the buffer's start, and writes 9000 after them.
pub fn seal_response(s: Session, response: &[u8], sw1: u8, sw2: u8, buf: &mut [u8]) -> Response
    requires { (length response.now ≤ 221) × (answer_room ≤ length buf.old) }
    ensures { ResponseSealed s (response.now ++ (sw1 ∷ sw2 ∷ [])) buf.old result buf.new }
{
    let plain_bytes = response.len() + 2;
    octets_lent::put(buf, MAC_BYTES, response);
    let status = [sw1, sw2];
    octets::put(buf, MAC_BYTES + response.len(), &status);
    let padded = aes_padding::padded_bytes(plain_bytes);
    let mac = seal_field(s, response_head(padded), buf, plain_bytes);
    let end = MAC_BYTES + padded;
    octets::put(buf, end, &PLAIN_SUCCESS);
    Response {
        count: end + 2,
        session: s.after(mac),
    }
}
