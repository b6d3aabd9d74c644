// Which path EXPORT (RULES 6.19) takes its keys from, and whether a private key may go out of it: at the node of EIP-1581 and below it alone.
// Every length and place is in bytes.
// Proved: each answer is the rulebook's, for every path, all data and every card whose current path fits.
#![tactic(auto)]

ghost use Rattle.std.specs.Prelude.{◌≡◌, [], ◌∷◌, ◌+◌, ◌≤◌, length};
ghost use Rattle.octets.specs.Bytes.{same_bytes};
ghost use Rattle.card.specs.State.{path_bytes};
ghost use Rattle.rules.specs.Supplies.{part};
ghost use Rattle.rules.specs.Commands.{exported_path, in_eip1581, may_go_out};

use card::{Keys, Path, wide};
use rules::{ExportPart, ExportPath};

// The node of EIP-1581: three components of a path.
const EIP_1581_BYTES: usize = 12;

// The first byte of a hardened component whose index has two bytes.
const HARDENED: u8 = 0x80;

// Whether the component at a place is the hardened one with this index, which has two bytes: the top bit of a hardened component is set.
fn is_hardened(path: &[u8], at: usize, high: u8, low: u8) -> bool
    requires { at + 4 ≤ length path.now }
    ensures { result ≡ same_bytes (part at 4 path.now) (0x80 ∷ 0 ∷ high ∷ low ∷ []) }
{
    let first = path[at] == HARDENED;
    let second = path[at + 1] == 0;
    let third = path[at + 2] == high;
    let fourth = path[at + 3] == low;
    first & (second & (third & fourth))
}

// Whether a path is the node of EIP-1581 or below it: its first three components are 8000002B, 8000003C and 8000062D.
fn in_eip_1581(path: &[u8]) -> bool
    ensures { result ≡ in_eip1581 path.now }
{
    if path.len() < EIP_1581_BYTES {
        return false;
    }
    let purpose = is_hardened(path, 0, 0x00, 0x2B);
    let coin = is_hardened(path, 4, 0x00, 0x3C);
    let usage = is_hardened(path, 8, 0x06, 0x2D);
    purpose & (coin & usage)
}

// The same of a path of the card.
fn is_there(path: Path) -> bool
    requires { path.len ≤ 40 }
    ensures { result ≡ in_eip1581 (path_bytes path) }
{
    let bytes = path.bytes;
    let end = wide(path.len);
    in_eip_1581(&bytes[..end])
}

// Whether the path whose keys go out is there.
fn exports_there(keys: Keys, which: ExportPath, data: &[u8]) -> bool
    requires { keys.current.len ≤ 40 }
    ensures { result ≡ in_eip1581 (exported_path which keys «data».now) }
{
    let current = is_there(keys.current);
    let given = in_eip_1581(data);
    match which {
        ExportPath::Current => current,
        ExportPath::Given => given,
        ExportPath::MakeCurrent => given,
    }
}

// Whether this part may go out of the path whose keys go out: a private key there alone.
pub fn may_go_out(keys: Keys, which: ExportPath, what: ExportPart, data: &[u8]) -> bool
    requires { keys.current.len ≤ 40 }
    ensures { result ≡ may_go_out what (exported_path which keys «data».now) }
{
    match what {
        ExportPart::PrivateAndPublic => exports_there(keys, which, data),
        ExportPart::PublicOnly => true,
    }
}
