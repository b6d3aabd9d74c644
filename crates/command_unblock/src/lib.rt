// UNBLOCK (RULES 6.13): the verdict of its checks, and its reply where they hold.
// Every length and count is in bytes.
// Proved: the verdict and the reply are what the command's rule gives, for every card and all data.
#![tactic(auto)]

ghost use Rattle.std.specs.Prelude.{◌≡◌, ◌<◌, drop};
ghost use Rattle.rules.specs.Words.{Hold, verdict};
ghost use Rattle.rules.specs.Code.{replied_of};
ghost use Rattle.rules.specs.Supplies.{no_supply};
ghost use Rattle.rules.specs.Rules.{puk, right_by};
ghost use Rattle.rules.specs.Commands.{is_unblocking, unblock_checks, puk_right, puk_wrong, unblock_reply};

use card::{Card, PIN_BYTES, PUK_BYTES, Pins};
use command_parts::{done, failed, must, part, reads_none, tries_left, with_pins};
use octets::same;
use rules::{CONDITIONS_NOT_MET, Replied, TRIES_LEFT, Verdict, WRONG_DATA};
use sound_bytes::digits;

// UNBLOCK's data: the PUK, then the new PIN.
const UNBLOCK_BYTES: usize = 18;

// Whether the data have their length, with digits for the new PIN; the PUK may be any bytes.
fn is_unblocking(data: &[u8]) -> bool
    ensures { result ≡ is_unblocking «data».now }
{
    if data.len() != UNBLOCK_BYTES {
        return false;
    }
    digits(&data[PUK_BYTES..])
}

#[tactic(auto, unfolding(rules::specs::Commands::unblock_checks))]
pub fn unblock_verdict(pins: Pins, data: &[u8]) -> Verdict
    ensures { result ≡ verdict no_supply (unblock_checks pins «data».now) }
{
    must(pins.pin_tries == 0, CONDITIONS_NOT_MET)?;
    must(pins.puk_tries != 0, TRIES_LEFT)?;
    must(is_unblocking(data), WRONG_DATA)?;
    reads_none()
}

fn puk_right(pins: Pins, pin: [u8; PIN_BYTES]) -> Pins
    ensures { result ≡ puk_right pins pin }
{
    let mut unblocked = pins;
    unblocked.pin = pin;
    unblocked.pin_tries = Card::PIN_TRIES;
    unblocked.puk_tries = Card::PUK_TRIES;
    unblocked.verified = 1;
    unblocked
}

fn puk_wrong(pins: Pins) -> Pins
    requires { 0 < pins.puk_tries }
    ensures { result ≡ puk_wrong pins }
{
    let mut failed = pins;
    let left = pins.puk_tries - 1;
    failed.puk_tries = left;
    failed
}

pub fn unblock(card: Card, data: &[u8]) -> Replied
    requires { Hold (unblock_checks card.pins «data».now) }
    ensures { result ≡ replied_of (unblock_reply (right_by puk card.pins «data».now) card (drop 12 «data».now)) }
{
    let pins = card.pins;
    let puk = pins.puk;
    if same(&data[..PUK_BYTES], &puk) {
        let unblocked = puk_right(pins, part(data, PUK_BYTES));
        return done(with_pins(card, unblocked));
    }
    let wrong = puk_wrong(pins);
    let status = tries_left(wrong.puk_tries);
    failed(with_pins(card, wrong), status)
}
