// REMOVE (RULES 6.16): the verdict of its checks, and its reply where they hold, no key and both paths empty.
// Lengths are in bytes.
// Proved: each verdict and reply is what the command's rule gives, for every card.
#![tactic(auto)]

ghost use Rattle.std.specs.Prelude.{◌≡◌};
ghost use Rattle.rules.specs.Words.{verdict};
ghost use Rattle.rules.specs.Code.{replied_of};
ghost use Rattle.rules.specs.Supplies.{no_supply};
ghost use Rattle.rules.specs.Commands.{remove_checks, remove_reply};

use card::{Card, KEY_BYTES, KEY_NONE, Pins};
use command_load::key_with;
use command_parts::{done, must, reads_none, with_keys};
use rules::{CONDITIONS_NOT_MET, Replied, Verdict};

#[tactic(auto, unfolding(rules::specs::Commands::remove_checks))]
pub fn remove_verdict(pins: Pins) -> Verdict
    ensures { result ≡ verdict no_supply (remove_checks pins) }
{
    must(pins.verified != 0, CONDITIONS_NOT_MET)?;
    reads_none()
}

pub fn remove(card: Card) -> Replied
    ensures { result ≡ replied_of (remove_reply card) }
{
    let keys = key_with(KEY_NONE, [0; KEY_BYTES]);
    let removed = with_keys(card, keys);
    done(removed)
}
