// VERIFY (RULES 6.11): the verdict of its check, and its reply where that holds.
// Every length and count is in bytes.
// Proved: the verdict and the reply are what the command's rule gives, for every card and all data.
#![tactic(auto)]

ghost use Rattle.std.specs.Prelude.{◌≡◌, ◌<◌};
ghost use Rattle.rules.specs.Words.{Hold, verdict};
ghost use Rattle.rules.specs.Code.{replied_of};
ghost use Rattle.rules.specs.Supplies.{no_supply};
ghost use Rattle.rules.specs.Rules.{pin, right_by};
ghost use Rattle.rules.specs.Commands.{verify_checks, pin_right, pin_wrong, verify_reply};

use card::{Card, Pins};
use command_parts::{done, failed, must, reads_none, tries_left, with_pins};
use octets::same;
use rules::{Replied, TRIES_LEFT, Verdict};

#[tactic(auto, unfolding(rules::specs::Commands::verify_checks))]
pub fn verify_verdict(pins: Pins) -> Verdict
    ensures { result ≡ verdict no_supply (verify_checks pins) }
{
    must(pins.pin_tries != 0, TRIES_LEFT)?;
    reads_none()
}

// PIN and PUK once the PIN was right: full tries, and verified.
pub fn pin_right(pins: Pins) -> Pins
    ensures { result ≡ pin_right pins }
{
    let mut verified = pins;
    verified.pin_tries = Card::PIN_TRIES;
    verified.verified = 1;
    verified
}

fn pin_wrong(pins: Pins) -> Pins
    requires { 0 < pins.pin_tries }
    ensures { result ≡ pin_wrong pins }
{
    let mut failed = pins;
    let left = pins.pin_tries - 1;
    failed.pin_tries = left;
    failed.verified = 0;
    failed
}

// The data are compared with the PIN, whatever their length.
pub fn verify(card: Card, data: &[u8]) -> Replied
    requires { Hold (verify_checks card.pins) }
    ensures { result ≡ replied_of (verify_reply (right_by pin card.pins «data».now) card) }
{
    let pins = card.pins;
    let pin = pins.pin;
    if same(data, &pin) {
        let verified = pin_right(pins);
        return done(with_pins(card, verified));
    }
    let wrong = pin_wrong(pins);
    let status = tries_left(wrong.pin_tries);
    failed(with_pins(card, wrong), status)
}
