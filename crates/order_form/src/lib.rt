// Step 2 of the order of checks (RULES 5.2): the form of a command's bytes, and its data.
// Every length, Lc included, is in bytes.
// Proved: the data are what the rulebook finds, and none where it finds the form wrong, for every command, however short.
#![tactic(auto)]

ghost use Rattle.std.specs.Prelude.{◌≡◌, ◌<◌, IfSome, IfNone};
ghost use Rattle.std.proofs.Math.Option.{none};
ghost use Rattle.rules.specs.Steps.{lc_fits, data_of};
ghost use Rattle.order_form.specs.Form.{DataIn};

use card::wide;

// CLA INS P1 P2, and with Lc, in bytes.
pub const HEADER_BYTES: usize = 4;

pub const FRONT_BYTES: usize = 5;

// Whether byte 4 can be the Lc of a command of this many bytes.
fn lc_fits(lc: usize, whole: usize) -> bool
    requires { lc < 256 }
    ensures { result ≡ lc_fits lc whole }
{
    let some = lc != 0;
    let bare = whole == FRONT_BYTES + lc;
    let with_le = whole == FRONT_BYTES + 1 + lc;
    some & (bare | with_le)
}

// Step 2: the command's data as received, or that the form is wrong.
pub fn find_data(cmd: &[u8]) -> Option<&[u8]>
    ensures some { IfSome result (λ field. DataIn cmd.now field.now) }
    ensures none { IfNone result (data_of cmd.now ≡ none) }
{
    let n = cmd.len();
    if n < HEADER_BYTES {
        return None;
    }
    if n <= FRONT_BYTES {
        return Some(&cmd[n..]);
    }
    let lc = wide(cmd[4]);
    if lc_fits(lc, n) {
        return Some(&cmd[FRONT_BYTES..FRONT_BYTES + lc]);
    }
    None
}
