// DERIVE (RULES 6.15) and SET PIN-LESS PATH (RULES 6.17): for each the verdict of its checks, and its reply where they hold.
// Every length and count is in bytes.
// Proved: each verdict and reply is what the command's rule gives, for every card, data and supply.
#![tactic(auto)]

ghost use Rattle.std.specs.Prelude.{true, ◌≡◌, ◌≤◌, length};
ghost use Rattle.card.specs.State.{path_of};
ghost use Rattle.rules.specs.Words.{Hold, verdict};
ghost use Rattle.rules.specs.Code.{replied_of};
ghost use Rattle.rules.specs.Supplies.{suits, no_supply, derive_supply};
ghost use Rattle.rules.specs.Commands.{is_path, with_current, with_pinless};
ghost use Rattle.rules.specs.Commands.{derive_checks, derive_reply};
ghost use Rattle.rules.specs.Commands.{pinless_checks, pinless_reply};

use card::{Card, KEY_EXTENDED, Keys, PATH_MAX_BYTES, Path, Pins};
use command_parts::{done, failed, must, reads, reads_none, says_yes, with_keys};
use rules::{CONDITIONS_NOT_MET, REFERENCE_INVALID, Replied, Verdict, WRONG_DATA};

// A component of a path.
pub const COMPONENT_BYTES: usize = 4;

// DERIVE's supply: the flag.
const DERIVE_SUPPLY: u8 = 7;

const DERIVE_SUPPLY_BYTES: usize = 1;

// ---- what both commands use
// Whether the data are a path: 0 to 40 bytes, 4 a component.
pub fn is_path(data: &[u8]) -> bool
    ensures { result ≡ is_path «data».now }
{
    let most = data.len() <= PATH_MAX_BYTES;
    let whole = data.len() % COMPONENT_BYTES == 0;
    most & whole
}

// The path of these bytes, zeros after them.
pub fn path_of(data: &[u8]) -> Path
    requires { length «data».now ≤ 40 }
    ensures { result ≡ path_of «data».now }
{
    let mut bytes = [0u8; PATH_MAX_BYTES];
    octets::put(&mut bytes, 0, data);
    let len = data.len() as u8;
    Path { len, bytes }
}

// ---- DERIVE D1: another current path
#[tactic(auto, unfolding(rules::specs::Commands::derive_checks))]
pub fn derive_verdict(pins: Pins, keys: Keys, data: &[u8]) -> Verdict
    ensures { result ≡ verdict derive_supply (derive_checks pins keys «data».now) }
{
    let pinless = keys.pinless;
    let verified = pins.verified != 0;
    let set = pinless.len != 0;
    let extended = keys.kind == KEY_EXTENDED;
    must((verified | set) & extended, CONDITIONS_NOT_MET)?;
    must(is_path(data), WRONG_DATA)?;
    reads(DERIVE_SUPPLY, DERIVE_SUPPLY_BYTES, true)
}

// The keys with this current path.
pub fn with_current(mut keys: Keys, path: Path) -> Keys
    ensures { result ≡ with_current keys path }
{
    keys.current = path;
    keys
}

pub fn derive(card: Card, data: &[u8], supply: &[u8]) -> Replied
    requires { Hold (derive_checks card.pins card.keys «data».now) × (suits derive_supply supply.now ≡ true) }
    ensures { result ≡ replied_of (derive_reply card «data».now supply.now) }
{
    if !says_yes(supply) {
        return failed(card, REFERENCE_INVALID);
    }
    let path = path_of(data);
    let keys = with_current(card.keys, path);
    let derived = with_keys(card, keys);
    done(derived)
}

// ---- SET PIN-LESS PATH C1
#[tactic(auto, unfolding(rules::specs::Commands::pinless_checks))]
pub fn pinless_verdict(pins: Pins, data: &[u8]) -> Verdict
    ensures { result ≡ verdict no_supply (pinless_checks pins «data».now) }
{
    must(pins.verified != 0, CONDITIONS_NOT_MET)?;
    must(is_path(data), WRONG_DATA)?;
    reads_none()
}

// The keys with this PIN-less path.
pub fn with_pinless(mut keys: Keys, path: Path) -> Keys
    ensures { result ≡ with_pinless keys path }
{
    keys.pinless = path;
    keys
}

pub fn pinless(card: Card, data: &[u8]) -> Replied
    requires { Hold (pinless_checks card.pins «data».now) }
    ensures { result ≡ replied_of (pinless_reply card «data».now) }
{
    let path = path_of(data);
    let keys = with_pinless(card.keys, path);
    let set = with_keys(card, keys);
    done(set)
}
