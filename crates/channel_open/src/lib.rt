// Opening of a field: a command's by the card, a response's by the terminal.
// Every length is in bytes: a field is a MAC of 16 with the ciphertext directly after it, 32 to 240 in all.
// Proved: a field is opened or refused as the definitions say, for every session and every field.
#![tactic(auto)]

ghost use Rattle.std.specs.Prelude.{true, ◌≡◌, ◌≤◌, ◌%◌, ◌-◌, length};
ghost use Rattle.std.specs.Option.{SomeIff};
ghost use Rattle.channel_rules.specs.Message.{command_head, response_head, field_form, opened, open_field};
ghost use Rattle.channel_open.specs.Promise.{Opens};

use channel_heads::{command_head, response_head, well_formed};
use channel_rules::{MAC_BYTES, Session};

// The longest ciphertext of a field, in bytes.
pub const CIPHERTEXT_MAX_BYTES: usize = 224;

// Opens a field of a right length under a head block: first the MAC, then the padding. The data is left at the start of `plain`.
fn open_formed(s: Session, head: [u8; 16], field: &[u8], plain: &mut [u8]) -> Option<usize>
    requires in_bounds { (32 ≤ length field.now) × (length field.now ≤ 240) × (length field.now % 16 ≡ 0) }
    requires plain_len { length plain.old ≡ 224 }
    ensures { Opens (opened s head field.now) result plain.new }
{
    let mac_key = s.mac_key;
    let mac = aes_word_mac::cbc_mac(&mac_key, head, &field[MAC_BYTES..]);
    if !octets::same(&mac, &field[0..MAC_BYTES]) {
        return None;
    }
    let n = field.len() - MAC_BYTES;
    octets_lent::put(plain, 0, &field[MAC_BYTES..]);
    let enc_key = s.enc_key;
    let iv = s.iv;
    aes_cbc::cbc_decrypt(&enc_key, iv, &mut plain[0..n]);
    aes_padding::find_data(&plain[0..n])
}

// How many bytes of ciphertext a field has whose length is right.
fn ciphertext_bytes(field: &[u8]) -> Option<usize>
    ensures { SomeIff result (field_form (length field.now) ≡ true) (length field.now - 16) }
{
    if well_formed(field.len()) {
        Some(field.len() - MAC_BYTES)
    } else {
        None
    }
}

// Opens a command's data field under the card's session.
pub fn open_command(s: Session, header: [u8; 4], field: &[u8], plain: &mut [u8]) -> Option<usize>
    requires { length plain.old ≡ 224 }
    ensures { Opens (open_field s (command_head header) field.now) result plain.new }
{
    let n = ciphertext_bytes(field)?;
    open_formed(s, command_head(header, n), field, plain)
}

// Opens a response's field under the terminal's session.
pub fn open_response(s: Session, field: &[u8], plain: &mut [u8]) -> Option<usize>
    requires { length plain.old ≡ 224 }
    ensures { Opens (open_field s response_head field.now) result plain.new }
{
    let n = ciphertext_bytes(field)?;
    open_formed(s, response_head(n), field, plain)
}
