// SET NDEF (RULES 6.20): the verdict of its checks, and its reply where they hold.
// Every length is in bytes.
// Proved: verdict and reply are what the command's rule gives, for every card and all data.
#![tactic(auto)]

ghost use Rattle.std.specs.Prelude.{◌≡◌, ◌≤◌, length};
ghost use Rattle.card.specs.Sizes.{tap_most_bytes};
ghost use Rattle.card.specs.State.{tap_of};
ghost use Rattle.rules.specs.Words.{Hold, verdict};
ghost use Rattle.rules.specs.Code.{replied_of};
ghost use Rattle.rules.specs.Supplies.{no_supply};
ghost use Rattle.rules.specs.Commands.{ndef_checks, ndef_reply};

use card::{Card, Pins, TAP_MAX_BYTES, Tap};
use command_parts::{done, must, reads_none, with_tap};
use rules::{CONDITIONS_NOT_MET, Replied, Verdict, WRONG_DATA};
use sound_tap::is_ndef;

// The tap record of these bytes, zeros after them.
pub fn tap_of(data: &[u8]) -> Tap
    requires { length «data».now ≤ tap_most_bytes }
    ensures { result ≡ tap_of «data».now }
{
    let mut bytes = [0u8; TAP_MAX_BYTES];
    octets::put(&mut bytes, 0, data);
    let len = data.len() as u8;
    Tap { len, bytes }
}

// ---- SET NDEF F3
#[tactic(auto, unfolding(rules::specs::Commands::ndef_checks))]
pub fn ndef_verdict(pins: Pins, data: &[u8]) -> Verdict
    ensures { result ≡ verdict no_supply (ndef_checks pins «data».now) }
{
    must(pins.verified != 0, CONDITIONS_NOT_MET)?;
    must(is_ndef(data), WRONG_DATA)?;
    reads_none()
}

pub fn ndef(card: Card, data: &[u8]) -> Replied
    requires { Hold (ndef_checks card.pins «data».now) }
    ensures { result ≡ replied_of (ndef_reply card «data».now) }
{
    let tap = tap_of(data);
    let set = with_tap(card, tap);
    done(set)
}
