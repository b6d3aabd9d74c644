// FRESH, soundness, RESET, WRITE, READ and the tap read for callers in C and Rust (RULES 3.8; include/treadlewisp.h). The card is lent, and
// changed where it lies.
// Every length, room and count is in bytes; a refusal 0 means that there was none.
// Proved: the promises of the operations by value, over the record at entry and at exit; refused, it is as it was (READ: FRESH of zeros).
#![tactic(auto)]

ghost use Rattle.std.specs.Prelude.{◌≡◌, cond, length};
ghost use Rattle.card.specs.State.{fresh_of};
ghost use Rattle.card.specs.Sound.{is_sound};
ghost use Rattle.sound.specs.Reset.{reset_answer};
ghost use Rattle.record_rules.specs.Answers.{read_answer};
ghost use Rattle.record_write.specs.Wrote.{WroteRecord};
ghost use Rattle.library_calls.specs.Left.{answer_of, written_of};
ghost use Rattle.record_tap.specs.Tap.{tap_place};
ghost use Rattle.library_calls.specs.Tapped.{tapped_of};

use card::Card;
use library_calls::{Counted, Tapped};

// FRESH: the card of a new device. What the record held before is not read.
#[unsafe(no_mangle)]
pub extern "C" fn tw_fresh(card: &mut Card, uid: &[u8; 16], public_key: &[u8; 65])
    ensures { card.new ≡ fresh_of uid.now public_key.now }
{
    let new = library_fresh::made(uid, public_key);
    *card = new;
}

// Soundness of a card, which is only read.
#[unsafe(no_mangle)]
pub extern "C" fn tw_sound(card: &Card) -> u8
    ensures { result ≡ cond (is_sound card.now) 1 0 }
{
    let found = *card;
    library_fresh::sound_number(found)
}

// RESET.
#[unsafe(no_mangle)]
pub extern "C" fn tw_reset(card: &mut Card) -> u8
    ensures { answer_of result card.new ≡ reset_answer card.old }
{
    let found = *card;
    let told = sound::reset(found);
    *card = told.card;
    told.refusal
}

// WRITE: the card is only read.
#[unsafe(no_mangle)]
pub extern "C" fn tw_write(card: &Card, buf: &mut [u8]) -> Counted
    ensures { WroteRecord card.now (written_of result) buf.old buf.new }
{
    let found = *card;
    library_calls::written(found, buf)
}

// READ: the record becomes READ's card. What it held before is not read.
#[unsafe(no_mangle)]
pub extern "C" fn tw_read(card: &mut Card, stored: &[u8]) -> u8
    ensures { answer_of result card.new ≡ read_answer stored.now }
{
    let told = record_read::read(stored);
    *card = told.card;
    told.refusal
}

// The tap read: both slices are only read, and of the factory record only the length.
#[unsafe(no_mangle)]
pub extern "C" fn tw_tap(stored: &[u8], factory: &[u8]) -> Tapped
    ensures { result ≡ tapped_of (tap_place stored.now) (length factory.now) }
{
    library_calls::tap_part(stored, factory.len())
}
