// Any command, once it is decoded: the verdict of its checks, its reply, and its fault offset.
// Every length and offset is in bytes.
// Proved: for every command, verdict, reply and fault offset are what its rule gives.
#![tactic(auto)]

ghost use Rattle.std.specs.Prelude.{◌≡◌, true, ◌≤◌, length};
ghost use Rattle.rules.specs.Words.{Hold, verdict};
ghost use Rattle.rules.specs.Code.{Replies};
ghost use Rattle.rules.specs.Supplies.{suits};
ghost use Rattle.rules.specs.Commands.{rule_of};
ghost use Rattle.rules.specs.Steps.{checks_of, supply_of, reply_of, fault_at};
ghost use Rattle.command_table.specs.Fits.{PathsFit};

use card::Card;
use rules::{Command, NO_FAULT, Replied, Verdict, WRONG_DATA};

// Step 6: the supply that is read where all checks hold, or the status word of the first check that does not.
// Not inlined: within step 5 its branches would have the card copied byte by byte for every command.
#[inline(never)]
pub fn judge(card: Card, k: Command, data: &[u8]) -> Verdict
    requires { PathsFit card.keys }
    ensures { result ≡ verdict (supply_of k) (checks_of k card «data».now) }
{
    let pins = card.pins;
    let pairing = card.pairing;
    let slots = pairing.slots;
    let keys = card.keys;
    let stage = card.channel.stage;
    match k {
        Command::Select => command_select::select_verdict(data),
        Command::Init => command_init::init_verdict(data),
        Command::Open(slot) => command_open::open_verdict(slots, slot, data),
        Command::Mutual => command_mutual::mutual_verdict(stage, data),
        Command::PairFirst => command_pair::pair_first_verdict(pairing, stage, data),
        Command::PairFinal => command_pair::pair_final_verdict(pairing, stage, data),
        Command::Unpair(_) => command_unpair::unpair_verdict(pins),
        Command::Status(_) => command_status::status_verdict(),
        Command::Verify => command_verify::verify_verdict(pins),
        Command::Change(which) => command_change::change_verdict(pins, which, data),
        Command::Unblock => command_unblock::unblock_verdict(pins, data),
        Command::Load(form) => command_load_checks::load_verdict(pins, form, data),
        Command::Derive => command_paths::derive_verdict(pins, keys, data),
        Command::Remove => command_remove::remove_verdict(pins),
        Command::SetPinless => command_paths::pinless_verdict(pins, data),
        Command::Sign => command_sign::sign_verdict(pins, keys, data),
        Command::Export(which, what) => {
            command_export::export_verdict(pins, keys, which, what, data)
        }
        Command::SetNdef => command_ndef::ndef_verdict(pins, data),
        Command::Mnemonic(which) => command_mnemonic::mnemonic_verdict(which, data),
    }
}

// Where all checks hold: the reply, with its response data from the start of `out`.
pub fn act(card: Card, k: Command, data: &[u8], supply: &[u8], out: &mut [u8]) -> Replied
    requires hold { Hold (checks_of k card «data».now) × (suits (supply_of k) supply.now ≡ true) }
    requires paths_fit { PathsFit card.keys × (221 ≤ length out.old) }
    ensures { Replies (reply_of k card «data».now supply.now) result out.old out.new }
{
    match k {
        Command::Select => command_select::select(card, out),
        Command::Init => command_init::init(card, data, supply),
        Command::Open(_) => command_open::open(card, supply, out),
        Command::Mutual => command_mutual::mutual(card, supply, out),
        Command::PairFirst => command_pair::pair_first(card, data, supply, out),
        Command::PairFinal => command_pair::pair_final(card, supply, out),
        Command::Unpair(slot) => command_unpair::unpair(card, slot),
        Command::Status(which) => command_status::status(card, which, out),
        Command::Verify => command_verify::verify(card, data),
        Command::Change(which) => command_change::change(card, which, data),
        Command::Unblock => command_unblock::unblock(card, data),
        Command::Load(form) => command_load::load(card, form, supply, out),
        Command::Derive => command_paths::derive(card, data, supply),
        Command::Remove => command_remove::remove(card),
        Command::SetPinless => command_paths::pinless(card, data),
        Command::Sign => command_sign::sign(card, supply, out),
        Command::Export(which, what) => {
            command_export::export(card, which, what, data, supply, out)
        }
        Command::SetNdef => command_ndef::ndef(card, data),
        Command::Mnemonic(which) => command_mnemonic::mnemonic(card, which, supply, out),
    }
}

// Where the data of a command are at fault, by its rule.
fn place_of(k: Command, data: &[u8]) -> usize
    ensures { result ≡ (rule_of k).place «data».now }
{
    let Command::Load(form) = k else {
        return NO_FAULT;
    };
    command_load_checks::load_place(form, data)
}

// The fault offset where a command's checks give this status word: its rule's, where that is 6A80.
pub fn fault_at(k: Command, data: &[u8], status: u16) -> usize
    ensures { result ≡ fault_at k «data».now status }
{
    let place = place_of(k, data);
    if status == WRONG_DATA {
        return place;
    }
    NO_FAULT
}
