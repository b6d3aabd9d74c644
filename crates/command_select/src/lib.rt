// SELECT (RULES 6.4), which is plain in every stage: the verdict of its check, and its reply where that holds.
// Every length and count is in bytes; slots are counted in slots.
// Proved: the verdict, the reply and every byte of the buffer are what the command's rule gives, for every card and data.
#![tactic(auto)]

ghost use Rattle.std.specs.Prelude.{◌≡◌, ◌≤◌, ◌<◌, length};
ghost use Rattle.template_rules.specs.Writing.{Wrote};
ghost use Rattle.template_answers.specs.Answers.{pre_initialised, application_info};
ghost use Rattle.card.specs.State.{key_uid};
ghost use Rattle.rules.specs.Words.{verdict};
ghost use Rattle.rules.specs.Code.{Replies};
ghost use Rattle.rules.specs.Supplies.{no_supply};
ghost use Rattle.rules.specs.Commands.{select_checks, free_slots, selected, select_reply};
ghost use Rattle.command_select.specs.Parts.{key_uid_bytes};

use card::{Card, Identity, KEY_BYTES, KEY_NONE, Keys, Slot};
use command_parts::{must, reads_none, replied};
use rules::{NOT_FOUND, Replied, Verdict};

// The name under which SELECT finds the application.
pub const APPLICATION_ID: [u8; 15] = [
    0x53, 0x74, 0x61, 0x74, 0x75, 0x73, 0x57, 0x61, 0x6C, 0x6C, 0x65, 0x74, 0x41, 0x70, 0x70,
];

#[tactic(auto, unfolding(rules::specs::Commands::select_checks))]
pub fn select_verdict(data: &[u8]) -> Verdict
    ensures { result ≡ verdict no_supply (select_checks «data».now) }
{
    let id = APPLICATION_ID;
    must(octets::same(data, &id), NOT_FOUND)?;
    reads_none()
}

// How many slots are free.
#[tactic(auto, using(crate::proofs::SelectFacts::counted_free))]
fn free_slots(slots: [Slot; Card::SLOTS]) -> u8
    ensures { result ≡ free_slots slots }
{
    slots.iter().filter(|slot| slot.filled == 0).count() as u8
}

// How many bytes of the key UID are answered: none without a key.
fn key_uid_bytes(kind: u8) -> usize
    ensures { result ≡ key_uid_bytes kind }
{
    if kind == KEY_NONE {
        return 0;
    }
    KEY_BYTES
}

// The answer of an initialised card.
fn put_info(identity: Identity, slots: [Slot; Card::SLOTS], keys: Keys, out: &mut [u8]) -> usize
    requires { 221 ≤ length out.old }
    ensures { Wrote (application_info identity.uid identity.public_key (free_slots slots) (key_uid keys)) 0 result
        out.old out.new }
{
    let uid = identity.uid;
    let public_key = identity.public_key;
    let free = free_slots(slots);
    let key_uid = keys.uid;
    let n = key_uid_bytes(keys.kind);
    template_application::put_application_info(out, 0, &uid, &public_key, free, &key_uid[0..n])
}

// The answer of a pre-initialised card.
fn put_key(identity: Identity, out: &mut [u8]) -> usize
    requires { 221 ≤ length out.old }
    ensures { Wrote (pre_initialised identity.public_key) 0 result out.old out.new }
{
    let public_key = identity.public_key;
    template_answers::put_pre_initialised(out, 0, &public_key)
}

// The answer, from the parts of the card that it shows.
fn put_selected(
    initialised: u8,
    identity: Identity,
    slots: [Slot; Card::SLOTS],
    keys: Keys,
    out: &mut [u8],
) -> usize
    requires { 221 ≤ length out.old }
    ensures { Wrote (selected initialised identity slots keys) 0 result out.old out.new }
{
    if initialised == 0 {
        put_key(identity, out)
    } else {
        put_info(identity, slots, keys, out)
    }
}

// Closes the channel, and so ends verification.
pub fn select(card: Card, out: &mut [u8]) -> Replied
    requires { 221 ≤ length out.old }
    ensures { Replies (select_reply card) result out.old out.new }
{
    let identity = card.identity;
    let slots = card.pairing.slots;
    let keys = card.keys;
    let count = put_selected(card.initialised, identity, slots, keys, out);
    let closed = card.close();
    replied(closed, count)
}
