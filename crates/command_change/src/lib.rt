// CHANGE (RULES 6.12), of the PIN, the PUK or the pairing secret: the verdict of its checks, and its reply where they hold.
// Every length and count is in bytes.
// Proved: the verdict and the reply are what the command's rule gives, for every card and all data.
#![tactic(auto)]

ghost use Rattle.std.specs.Prelude.{◌≡◌};
ghost use Rattle.rules.specs.Words.{Hold, verdict};
ghost use Rattle.rules.specs.Code.{replied_of};
ghost use Rattle.rules.specs.Supplies.{no_supply};
ghost use Rattle.rules.specs.Commands.{are_digits};
ghost use Rattle.rules.specs.Commands.{is_secret, change_checks, with_pin, with_puk, with_pairing_secret, change_reply};

use card::{Card, KEY_BYTES, PIN_BYTES, PUK_BYTES, Pairing, Pins};
use command_parts::{done, must, part, reads_none, with_pairing, with_pins};
use rules::{CONDITIONS_NOT_MET, Replied, SecretKind, Verdict, WRONG_DATA};
use sound_bytes::digits;

// Whether the data are so many digits.
fn are_digits(data: &[u8], n: usize) -> bool
    ensures { result ≡ are_digits n «data».now }
{
    let long = data.len() == n;
    let each = digits(data);
    long & each
}

// Whether the data have the form of the secret.
fn is_secret(which: SecretKind, data: &[u8]) -> bool
    ensures { result ≡ is_secret which «data».now }
{
    match which {
        SecretKind::Pin => are_digits(data, PIN_BYTES),
        SecretKind::Puk => are_digits(data, PUK_BYTES),
        SecretKind::Pairing => data.len() == KEY_BYTES,
    }
}

#[tactic(auto, unfolding(rules::specs::Commands::change_checks))]
pub fn change_verdict(pins: Pins, which: SecretKind, data: &[u8]) -> Verdict
    ensures { result ≡ verdict no_supply (change_checks pins which «data».now) }
{
    must(pins.verified != 0, CONDITIONS_NOT_MET)?;
    must(is_secret(which, data), WRONG_DATA)?;
    reads_none()
}

fn with_pin(pins: Pins, pin: [u8; PIN_BYTES]) -> Pins
    ensures { result ≡ with_pin pins pin }
{
    let mut changed = pins;
    changed.pin = pin;
    changed.pin_tries = Card::PIN_TRIES;
    changed
}

fn with_puk(pins: Pins, puk: [u8; PUK_BYTES]) -> Pins
    ensures { result ≡ with_puk pins puk }
{
    let mut changed = pins;
    changed.puk = puk;
    changed.puk_tries = Card::PUK_TRIES;
    changed
}

fn with_secret(pairing: Pairing, secret: [u8; KEY_BYTES]) -> Pairing
    ensures { result ≡ with_pairing_secret pairing secret }
{
    let mut changed = pairing;
    changed.secret = secret;
    changed
}

pub fn change(card: Card, which: SecretKind, data: &[u8]) -> Replied
    requires { Hold (change_checks card.pins which «data».now) }
    ensures { result ≡ replied_of (change_reply card which «data».now) }
{
    let pins = card.pins;
    let pairing = card.pairing;
    match which {
        SecretKind::Pin => {
            let changed = with_pin(pins, part(data, 0));
            done(with_pins(card, changed))
        }
        SecretKind::Puk => {
            let changed = with_puk(pins, part(data, 0));
            done(with_pins(card, changed))
        }
        SecretKind::Pairing => {
            let changed = with_secret(pairing, part(data, 0));
            done(with_pairing(card, changed))
        }
    }
}
