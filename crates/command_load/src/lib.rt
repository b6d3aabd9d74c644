// LOAD (RULES 6.14), P1 01 and 02 a keypair, with its chain code or without, P1 03 a seed: its reply where its checks hold.
// Every length and count is in bytes.
// Proved: each reply and byte of the buffer is what the command's rule gives, for every card and supply.
#![tactic(auto)]

ghost use Rattle.std.specs.Prelude.{true, ◌≡◌, ◌≤◌, length};
ghost use Rattle.rules.specs.Code.{Replies};
ghost use Rattle.rules.specs.Supplies.{suits, load_supply};
ghost use Rattle.rules.specs.Commands.{kind_of, key_with, load_reply};

use card::{Card, KEY_BYTES, KEY_EXTENDED, KEY_SINGLE, Keys, PATH_MAX_BYTES, Path};
use command_load_checks::{LOAD_SUPPLY_BYTES, PUBLIC_KEY_AT};
use command_parts::{failed, replied, says_yes, with_keys};
use rules::{KeyForm, Replied, WRONG_DATA};

// The kind of key that a form makes.
fn kind_of(form: KeyForm) -> u8
    ensures { result ≡ kind_of form }
{
    match form {
        KeyForm::Keypair => KEY_SINGLE,
        KeyForm::Extended => KEY_EXTENDED,
        KeyForm::Seed => KEY_EXTENDED,
    }
}

// Keys of this kind and UID, both paths empty.
pub fn key_with(kind: u8, uid: [u8; KEY_BYTES]) -> Keys
    ensures { result ≡ key_with kind uid }
{
    let empty = Path {
        len: 0,
        bytes: [0; PATH_MAX_BYTES],
    };
    Keys {
        kind,
        uid,
        current: empty,
        pinless: empty,
    }
}

pub fn load(card: Card, form: KeyForm, supply: &[u8], out: &mut [u8]) -> Replied
    requires { (suits load_supply supply.now ≡ true) × (221 ≤ length out.old) }
    ensures { Replies (load_reply card form supply.now) result out.old out.new }
{
    if !says_yes(supply) {
        return failed(card, WRONG_DATA);
    }
    let uid = sha_hash::sha256(&supply[PUBLIC_KEY_AT..LOAD_SUPPLY_BYTES]);
    octets::put(out, 0, &uid);
    let keys = key_with(kind_of(form), uid);
    let loaded = with_keys(card, keys);
    replied(loaded, KEY_BYTES)
}
