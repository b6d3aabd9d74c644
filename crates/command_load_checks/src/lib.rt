// LOAD (RULES 6.14): the verdict of its checks, and the fault offset in data that it does not take.
// Every length and offset is in bytes.
// Proved: each verdict and offset is what the command's rule gives, for every card and data.
#![tactic(auto)]

ghost use Rattle.std.specs.Prelude.{◌≡◌};
ghost use Rattle.rules.specs.Words.{verdict};
ghost use Rattle.rules.specs.Supplies.{load_supply};
ghost use Rattle.rules.specs.Commands.{is_key_data, load_checks, place_in, load_place};

use card::Pins;
use command_parts::{must, reads};
use rules::{CONDITIONS_NOT_MET, KeyForm, NO_FAULT, Verdict, WRONG_DATA};
use template_keypair::PUBLIC_KEY_BYTES;
use template_walk::Refused;

// LOAD, P1 03: the seed.
pub const SEED_BYTES: usize = 64;

// LOAD's supply: the flag, then the public key.
const LOAD_SUPPLY: u8 = 6;

pub const PUBLIC_KEY_AT: usize = 1;

pub const LOAD_SUPPLY_BYTES: usize = PUBLIC_KEY_AT + PUBLIC_KEY_BYTES;

// Whether LOAD takes the data under this form.
fn is_key_data(form: KeyForm, data: &[u8]) -> bool
    ensures { result ≡ is_key_data form «data».now }
{
    match form {
        KeyForm::Keypair => template_keypair::is_keypair(data, false),
        KeyForm::Extended => template_keypair::is_keypair(data, true),
        KeyForm::Seed => data.len() == SEED_BYTES,
    }
}

#[tactic(auto, unfolding(rules::specs::Commands::load_checks))]
pub fn load_verdict(pins: Pins, form: KeyForm, data: &[u8]) -> Verdict
    ensures { result ≡ verdict load_supply (load_checks pins form «data».now) }
{
    must(pins.verified != 0, CONDITIONS_NOT_MET)?;
    must(is_key_data(form, data), WRONG_DATA)?;
    reads(LOAD_SUPPLY, LOAD_SUPPLY_BYTES, true)
}

// The place of the faulty field where WALK refused, NO_FAULT elsewhere.
fn place_in(walked: Result<usize, Refused>) -> usize
    ensures { result ≡ place_in walked }
{
    match walked {
        Ok(_) => NO_FAULT,
        Err(refused) => refused.place,
    }
}

// LOAD's fault offset in data that it does not take: WALK's in a template; a seed has none.
pub fn load_place(form: KeyForm, data: &[u8]) -> usize
    ensures { result ≡ load_place form «data».now }
{
    let place = place_in(template_walk::walk(data));
    match form {
        KeyForm::Keypair => place,
        KeyForm::Extended => place,
        KeyForm::Seed => NO_FAULT,
    }
}
