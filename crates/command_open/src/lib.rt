// OPEN (RULES 6.6), which is plain in every stage: the verdict of its checks, and its reply where they hold.
// Every length and count is in bytes; a slot's index counts slots from 0, and an index that no slot has reads as a free one.
// Proved: the verdict, the reply and every byte of the buffer are what the command's rule gives, for every card, index, data and supply.
#![tactic(auto)]

ghost use Rattle.std.specs.Prelude.{◌≡◌, true, not, ◌++◌, ◌≤◌, length};
ghost use Rattle.template_rules.specs.Writing.{Wrote};
ghost use Rattle.card.specs.Slots.{is_free};
ghost use Rattle.rules.specs.Words.{verdict};
ghost use Rattle.rules.specs.Code.{Replies};
ghost use Rattle.rules.specs.Supplies.{suits, open_supply, open_salt, open_iv};
ghost use Rattle.rules.specs.Commands.{is_point, slot_at, open_checks, opened_with, open_reply};

use card::{Card, Channel, IV_BYTES, KEY_BYTES, STAGE_OPENED, Slot, wide};
use command_parts::{
    POINT_FORM, failed, must, part, put_both, reads, replied, says_yes, with_channel,
};
use rules::{Replied, Verdict, WRONG_DATA, WRONG_PARAMETERS};

// A point in uncompressed form: its length in bytes.
pub const POINT_BYTES: usize = 65;

// OPEN's supply, and where its parts begin: flag, enc key 32, MAC key 32, salt 32, IV 16.
const OPEN_SUPPLY: u8 = 2;

const OPEN_SUPPLY_BYTES: usize = 113;

const ENC_KEY_AT: usize = 1;

const MAC_KEY_AT: usize = 33;

const SALT_AT: usize = 65;

const OPEN_IV_AT: usize = 97;

// Whether the data are a point in uncompressed form.
fn is_point(data: &[u8]) -> bool
    ensures { result ≡ is_point «data».now }
{
    if data.len() != POINT_BYTES {
        return false;
    }
    data[0] == POINT_FORM
}

// Whether the slot of this index is there and filled.
fn is_filled(slots: [Slot; Card::SLOTS], slot: u8) -> bool
    ensures { result ≡ not (is_free (slot_at slots slot)) }
{
    let i = wide(slot);
    if i >= Card::SLOTS {
        return false;
    }
    let chosen = slots[i];
    chosen.filled != 0
}

#[tactic(auto, unfolding(rules::specs::Commands::open_checks))]
pub fn open_verdict(slots: [Slot; Card::SLOTS], slot: u8, data: &[u8]) -> Verdict
    ensures { result ≡ verdict open_supply (open_checks slots slot «data».now) }
{
    must(is_filled(slots, slot), WRONG_PARAMETERS)?;
    must(is_point(data), WRONG_DATA)?;
    reads(OPEN_SUPPLY, OPEN_SUPPLY_BYTES, true)
}

// The channel in stage 1 with the session that the supply brings.
fn opened_channel(supply: &[u8]) -> Channel
    requires { length supply.now ≡ 113 }
    ensures { result ≡ opened_with supply.now }
{
    let enc_key = part(supply, ENC_KEY_AT);
    let mac_key = part(supply, MAC_KEY_AT);
    let iv = part(supply, OPEN_IV_AT);
    Channel {
        stage: STAGE_OPENED,
        enc_key,
        mac_key,
        iv,
    }
}

// Writes salt and IV.
fn put_salt_iv(supply: &[u8], out: &mut [u8]) -> usize
    requires { (length supply.now ≡ 113) × (221 ≤ length out.old) }
    ensures { Wrote (open_salt supply.now ++ open_iv supply.now) 0 result out.old out.new }
{
    let salt = part::<KEY_BYTES>(supply, SALT_AT);
    let iv = part::<IV_BYTES>(supply, OPEN_IV_AT);
    put_both(out, &salt, &iv)
}

// The card comes with its channel closed.
pub fn open(card: Card, supply: &[u8], out: &mut [u8]) -> Replied
    requires { (suits open_supply supply.now ≡ true) × (221 ≤ length out.old) }
    ensures { Replies (open_reply card supply.now) result out.old out.new }
{
    if !says_yes(supply) {
        return failed(card, WRONG_DATA);
    }
    let count = put_salt_iv(supply, out);
    let channel = opened_channel(supply);
    replied(with_channel(card, channel), count)
}
