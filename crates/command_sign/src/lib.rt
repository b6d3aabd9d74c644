// SIGN (RULES 6.18): the verdict of its checks, and its reply where they hold.
// Every length and count is in bytes.
// Proved: the verdict, the reply and every byte of the buffer are what the command's rule gives, for every card whose paths fit.
#![tactic(auto)]

ghost use Rattle.std.specs.Prelude.{true, ◌≡◌, ◌≤◌, length};
ghost use Rattle.octets.specs.Bytes.{same_bytes};
ghost use Rattle.card.specs.State.{path_bytes};
ghost use Rattle.rules.specs.Words.{verdict};
ghost use Rattle.rules.specs.Code.{Replies};
ghost use Rattle.rules.specs.Supplies.{suits, sign_supply};
ghost use Rattle.rules.specs.Commands.{on_pinless_path};
ghost use Rattle.rules.specs.Commands.{sign_checks, sign_reply};

use card::{Card, KEY_NONE, Keys, Path, Pins, wide};
use command_parts::{must, reads, replied};
use rules::{CONDITIONS_NOT_MET, Replied, Verdict, WRONG_DATA};
use template_signature::put_signature;

// SIGN: the hash that is signed.
pub const HASH_BYTES: usize = 32;

// SIGN's supply, and where public key, r and s end in it.
const SIGN_SUPPLY: u8 = 8;

const SIGN_SUPPLY_BYTES: usize = 129;

pub const SIGN_KEY_END: usize = 65;

pub const SIGN_R_END: usize = 97;

pub const SIGN_S_END: usize = 129;

// ---- SIGN C0: with a verified PIN, or where the current path is the PIN-less one
// Whether two paths are the same.
fn same_path(a: &Path, b: &Path) -> bool
    requires { (a.now.len ≤ 40) × (b.now.len ≤ 40) }
    ensures { result ≡ same_bytes (path_bytes a.now) (path_bytes b.now) }
{
    let a_end = wide(a.len);
    let b_end = wide(b.len);
    octets::same(&a.bytes[..a_end], &b.bytes[..b_end])
}

// Whether the PIN-less path is not empty and equals the current one.
fn on_pinless_path(keys: Keys) -> bool
    requires { (keys.current.len ≤ 40) × (keys.pinless.len ≤ 40) }
    ensures { result ≡ on_pinless_path keys }
{
    let set = keys.pinless.len != 0;
    let equal = same_path(&keys.pinless, &keys.current);
    set & equal
}

#[tactic(auto, unfolding(rules::specs::Commands::sign_checks))]
pub fn sign_verdict(pins: Pins, keys: Keys, data: &[u8]) -> Verdict
    requires { (keys.current.len ≤ 40) × (keys.pinless.len ≤ 40) }
    ensures { result ≡ verdict sign_supply (sign_checks pins keys «data».now) }
{
    let some = keys.kind != KEY_NONE;
    let verified = pins.verified != 0;
    let pinless = on_pinless_path(keys);
    let allowed = some & (verified | pinless);
    must(allowed, CONDITIONS_NOT_MET)?;
    must(data.len() == HASH_BYTES, WRONG_DATA)?;
    reads(SIGN_SUPPLY, SIGN_SUPPLY_BYTES, false)
}

pub fn sign(card: Card, supply: &[u8], out: &mut [u8]) -> Replied
    requires { (suits sign_supply supply.now ≡ true) × (221 ≤ length out.old) }
    ensures { Replies (sign_reply card supply.now) result out.old out.new }
{
    let key = &supply[0..SIGN_KEY_END];
    let r = &supply[SIGN_KEY_END..SIGN_R_END];
    let s = &supply[SIGN_R_END..SIGN_S_END];
    let count = put_signature(out, 0, key, r, s);
    replied(card, count)
}
