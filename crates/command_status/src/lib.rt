// GET STATUS (RULES 6.10), which has no checks of its own: its verdict and its reply.
// Every length and count is in bytes.
// Proved: the verdict, the reply and every byte of the buffer are what the command's rule gives, for every card whose current path fits.
#![tactic(auto)]

ghost use Rattle.std.specs.Prelude.{◌≡◌, [], ◌≤◌, length};
ghost use Rattle.template_rules.specs.Writing.{Wrote};
ghost use Rattle.card.specs.State.{path_bytes};
ghost use Rattle.rules.specs.Words.{verdict};
ghost use Rattle.rules.specs.Code.{Replies};
ghost use Rattle.rules.specs.Supplies.{no_supply};
ghost use Rattle.rules.specs.Commands.{status_bytes, status_reply};

use card::{Card, KEY_NONE, Keys, Path, Pins, wide};
use command_parts::{reads_none, replied};
use octets::put;
use rules::{Replied, StatusKind, Verdict};
use template_answers::put_status;

pub fn status_verdict() -> Verdict
    ensures { result ≡ verdict no_supply [] }
{
    reads_none()
}

// Writes the tries and whether there is a key.
fn put_application(pins: Pins, keys: Keys, out: &mut [u8]) -> usize
    requires { 11 ≤ length out.old }
    ensures { Wrote (status_bytes pins keys) 0 result out.old out.new }
{
    let has_key = keys.kind != KEY_NONE;
    put_status(out, 0, pins.pin_tries, pins.puk_tries, has_key)
}

// Writes the bytes of a path that are in use.
fn put_path(path: Path, out: &mut [u8]) -> usize
    requires { (path.len ≤ 40) × (40 ≤ length out.old) }
    ensures { Wrote (path_bytes path) 0 result out.old out.new }
{
    let bytes = path.bytes;
    let n = wide(path.len);
    put(out, 0, &bytes[..n]);
    n
}

pub fn status(card: Card, which: StatusKind, out: &mut [u8]) -> Replied
    requires { (221 ≤ length out.old) × (card.keys.current.len ≤ 40) }
    ensures { Replies (status_reply card which) result out.old out.new }
{
    let pins = card.pins;
    let keys = card.keys;
    match which {
        StatusKind::Application => {
            let count = put_application(pins, keys, out);
            replied(card, count)
        }
        StatusKind::Path => {
            let current = keys.current;
            let count = put_path(current, out);
            replied(card, count)
        }
    }
}
