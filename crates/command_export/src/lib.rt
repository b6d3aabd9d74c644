// EXPORT (RULES 6.19): its reply where its checks hold, with the verdict of command_export_checks passed on.
// Every length, count and place is in bytes.
// Proved: the reply and every byte of the buffer are what the command's rule gives, for every card and every supply of the right form.
#![tactic(auto)]

ghost use Rattle.std.specs.Prelude.{true, ◌≡◌, ◌≤◌, length};
ghost use Rattle.template_rules.specs.Writing.{Wrote};
ghost use Rattle.rules.specs.Words.{Hold};
ghost use Rattle.rules.specs.Code.{Replies};
ghost use Rattle.rules.specs.Supplies.{suits, export_supply};
ghost use Rattle.rules.specs.Commands.{exported_keys, keys_after_export, export_checks, export_reply};

use card::{Card, Keys};
pub use command_export_checks::export_verdict;
use command_parts::{failed, replied, says_yes, with_keys};
use command_paths::{path_of, with_current};
use rules::{ExportPart, ExportPath, REFERENCE_INVALID, Replied};
use template_export::{put_exported_pair, put_exported_public};

// Where the public key begins in the supply, where it ends and the private key begins, and where that ends.
pub const EXPORT_PUBLIC_AT: usize = 1;

pub const EXPORT_PRIVATE_AT: usize = 66;

pub const EXPORT_PRIVATE_END: usize = 98;

// Writes what goes out of the supply from the buffer's start, and gives its length.
fn put_exported(out: &mut [u8], what: ExportPart, supply: &[u8]) -> usize
    requires { (length supply.now ≡ 98) × (221 ≤ length out.old) }
    ensures { Wrote (exported_keys what supply.now) 0 result out.old out.new }
{
    let key = &supply[EXPORT_PUBLIC_AT..EXPORT_PRIVATE_AT];
    match what {
        ExportPart::PrivateAndPublic => {
            let private = &supply[EXPORT_PRIVATE_AT..EXPORT_PRIVATE_END];
            put_exported_pair(out, 0, key, private)
        }
        ExportPart::PublicOnly => put_exported_public(out, 0, key),
    }
}

// The keys afterwards: the given path becomes current where P1 says so.
fn keys_after(keys: Keys, which: ExportPath, data: &[u8]) -> Keys
    requires { length «data».now ≤ 40 }
    ensures { result ≡ keys_after_export which keys «data».now }
{
    match which {
        ExportPath::Current => keys,
        ExportPath::Given => keys,
        ExportPath::MakeCurrent => with_current(keys, path_of(data)),
    }
}

pub fn export(
    card: Card,
    which: ExportPath,
    what: ExportPart,
    data: &[u8],
    supply: &[u8],
    out: &mut [u8],
) -> Replied
    requires hold { Hold (export_checks card.pins card.keys which what «data».now) × (suits export_supply supply.now ≡ true) }
    requires in_bounds { 221 ≤ length out.old }
    ensures { Replies (export_reply card which what «data».now supply.now) result out.old out.new }
{
    let keys = keys_after(card.keys, which, data);
    let exported = with_keys(card, keys);
    if !says_yes(supply) {
        return failed(card, REFERENCE_INVALID);
    }
    let count = put_exported(out, what, supply);
    replied(exported, count)
}
