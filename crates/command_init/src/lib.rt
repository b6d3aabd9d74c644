// INIT (RULES 6.5), which is plain in every stage: the verdict of its check, and its reply where that holds.
// Every length and count is in bytes.
// Proved: the verdict and the reply are what the command's rule gives, for every card, data and supply.
#![tactic(auto)]

ghost use Rattle.std.specs.Prelude.{◌≡◌, true, length};
ghost use Rattle.aes_rules.specs.Aes.{inv_aes256};
ghost use Rattle.aes_cbc.specs.Mode.{cbc_decrypt};
ghost use Rattle.aes_padding.specs.Padding.{unpad};
ghost use Rattle.rules.specs.Words.{Hold, verdict};
ghost use Rattle.rules.specs.Code.{replied_of};
ghost use Rattle.rules.specs.Supplies.{suits, init_supply};
ghost use Rattle.rules.specs.Commands.{is_init_data, init_checks, is_content, pins_with, initialised_with, init_reply};
ghost use Rattle.command_init.specs.Content.{brought_content, right};

use card::{Card, IV_BYTES, KEY_BYTES, Pairing, Pins};
use command_parts::{POINT_FORM, done, failed, must, part, reads, says_yes};
use rules::{Replied, Verdict, WRONG_DATA};

// INIT's data, and where its parts begin: the point's length in one byte, the point, IV 16, ciphertext 64.
pub const INIT_DATA_BYTES: usize = 146;

pub const POINT_LENGTH: u8 = 0x41;

const INIT_IV_AT: usize = 66;

const CIPHERTEXT_AT: usize = 82;

const CIPHERTEXT_BYTES: usize = 64;

// INIT's content, and where its parts begin: PIN 6, PUK 12, pairing secret 32.
pub const CONTENT_BYTES: usize = 50;

const PUK_AT: usize = 6;

const SECRET_AT: usize = 18;

// INIT's supply: the flag, then the AES key.
const INIT_SUPPLY: u8 = 1;

const INIT_SUPPLY_BYTES: usize = 33;

const AES_KEY_AT: usize = 1;

// Whether the data have INIT's form.
fn is_init_data(data: &[u8]) -> bool
    ensures { result ≡ is_init_data «data».now }
{
    if data.len() != INIT_DATA_BYTES {
        return false;
    }
    let point_bytes = data[0] == POINT_LENGTH;
    let point_form = data[1] == POINT_FORM;
    point_bytes & point_form
}

#[tactic(auto, unfolding(rules::specs::Commands::init_checks))]
pub fn init_verdict(data: &[u8]) -> Verdict
    ensures { result ≡ verdict init_supply (init_checks «data».now) }
{
    must(is_init_data(data), WRONG_DATA)?;
    reads(INIT_SUPPLY, INIT_SUPPLY_BYTES, true)
}

// Whether these bytes are a PIN, a PUK and a pairing secret.
fn is_content(content: &[u8]) -> bool
    ensures { result ≡ is_content content.now }
{
    if content.len() != CONTENT_BYTES {
        return false;
    }
    let pin = sound_bytes::digits(&content[0..PUK_AT]);
    let puk = sound_bytes::digits(&content[PUK_AT..SECRET_AT]);
    pin & puk
}

// What the deciphered bytes hold before their padding, where that is content that is right.
fn decipher(
    key: [u8; KEY_BYTES],
    iv: [u8; IV_BYTES],
    mut bytes: [u8; CIPHERTEXT_BYTES],
) -> Option<[u8; CONTENT_BYTES]>
    ensures { result ≡ right (unpad (cbc_decrypt (inv_aes256 key) iv bytes)) }
{
    aes_cbc::cbc_decrypt(&key, iv, &mut bytes);
    let n = aes_padding::find_data(&bytes)?;
    if is_content(&bytes[..n]) {
        Some(part(&bytes, 0))
    } else {
        None
    }
}

// Opens INIT's data with the key that the supply brings, if its flag says yes.
fn open_init(data: &[u8], supply: &[u8]) -> Option<[u8; CONTENT_BYTES]>
    requires { (length «data».now ≡ 146) × (length supply.now ≡ 33) }
    ensures { result ≡ right (brought_content «data».now supply.now) }
{
    if !says_yes(supply) {
        return None;
    }
    let key = part(supply, AES_KEY_AT);
    let iv = part(data, INIT_IV_AT);
    let ciphertext = part(data, CIPHERTEXT_AT);
    decipher(key, iv, ciphertext)
}

// PIN and PUK with full tries.
fn pins_with(content: [u8; CONTENT_BYTES]) -> Pins
    ensures { result ≡ pins_with content }
{
    let pin = part(&content, 0);
    let puk = part(&content, PUK_AT);
    Pins {
        pin,
        puk,
        pin_tries: Card::PIN_TRIES,
        puk_tries: Card::PUK_TRIES,
        verified: 0,
    }
}

// The card with what the content brings.
fn initialised_with(card: Card, content: [u8; CONTENT_BYTES]) -> Card
    ensures { result ≡ initialised_with card content }
{
    let secret = part(&content, SECRET_AT);
    Card {
        initialised: 1,
        pins: pins_with(content),
        pairing: Pairing {
            secret,
            ..card.pairing
        },
        ..card
    }
}

pub fn init(card: Card, data: &[u8], supply: &[u8]) -> Replied
    requires { Hold (init_checks «data».now) × (suits init_supply supply.now ≡ true) }
    ensures { result ≡ replied_of (init_reply card «data».now supply.now) }
{
    match open_init(data, supply) {
        Some(content) => done(initialised_with(card, content)),
        None => failed(card, WRONG_DATA),
    }
}
