// EXPORT (RULES 6.19): the verdict of its checks.
// Every length is in bytes.
// Proved: the verdict is what the command's rule gives, for all data and every card whose current path fits.
#![tactic(auto)]

ghost use Rattle.std.specs.Prelude.{◌≡◌, ◌≤◌};
ghost use Rattle.rules.specs.Words.{verdict};
ghost use Rattle.rules.specs.Supplies.{export_supply};
ghost use Rattle.rules.specs.Commands.{is_export_data, export_checks};

use card::{KEY_EXTENDED, Keys, Pins};
use command_export_paths::may_go_out;
use command_parts::{must, reads};
use command_paths::is_path;
use rules::{CONDITIONS_NOT_MET, ExportPart, ExportPath, Verdict, WRONG_DATA};

// EXPORT's supply.
const EXPORT_SUPPLY: u8 = 9;

const EXPORT_SUPPLY_BYTES: usize = 98;

// Whether the data are what this P1 takes: none, or a path.
fn is_export_data(which: ExportPath, data: &[u8]) -> bool
    ensures { result ≡ is_export_data which «data».now }
{
    match which {
        ExportPath::Current => data.len() == 0,
        ExportPath::Given => is_path(data),
        ExportPath::MakeCurrent => is_path(data),
    }
}

#[tactic(auto, unfolding(rules::specs::Commands::export_checks))]
pub fn export_verdict(
    pins: Pins,
    keys: Keys,
    which: ExportPath,
    what: ExportPart,
    data: &[u8],
) -> Verdict
    requires { keys.current.len ≤ 40 }
    ensures { result ≡ verdict export_supply (export_checks pins keys which what «data».now) }
{
    let extended = keys.kind == KEY_EXTENDED;
    let verified = pins.verified != 0;
    must(extended & verified, CONDITIONS_NOT_MET)?;
    must(is_export_data(which, data), WRONG_DATA)?;
    must(may_go_out(keys, which, what, data), CONDITIONS_NOT_MET)?;
    reads(EXPORT_SUPPLY, EXPORT_SUPPLY_BYTES, true)
}
