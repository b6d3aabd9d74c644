// The public operations over a card's bytes and a session's, by value, for the soft card.
// Every length, room, count and offset is in bytes; WALK counts fields.
// Proved: each call is the operation on the card whose bytes are given, by the layout's places (`card_at`), and its next card is given as its
// bytes (`card_flat`); on a session likewise.
#![tactic(auto)]

ghost use Rattle.std.specs.Prelude.{◌≡◌, length};
ghost use Rattle.card.specs.State.{fresh_of};
ghost use Rattle.card.specs.Sound.{is_sound};
ghost use Rattle.channel_rules.specs.Terminal.{seal_out, unseal_out};
ghost use Rattle.sound.specs.Reset.{reset_answer};
ghost use Rattle.record_rules.specs.Answers.{read_answer};
ghost use Rattle.record_write.specs.Wrote.{WroteRecord};
ghost use Rattle.template_walk.specs.Walk.{WALK};
ghost use Rattle.rules.specs.Engine.{ask_out, answer_out};
ghost use Rattle.rules.specs.Reports.{AskDid};
ghost use Rattle.soft_card_bytes.specs.Flat.{card_flat};
ghost use Rattle.soft_card_bytes.specs.Places.{card_at, session_at};
ghost use Rattle.soft_byte_calls.specs.Calls.{answer_flat, CardDid, SessionDid};

use card::Card;
use record_write::Written;
use rules::Asked;
use soft_card_bytes::{CARD_BYTES, SESSION_BYTES};

// The reports below have a number beside what they tell, and are no Result: on a refusal too the engine tells the next card or session,
// and `answer_flat`, `CardDid` and `SessionDid` say which.
// What RESET and READ give: the refusal's number or 0, the next card.
#[derive(Clone, Copy)]
pub struct CardGiven {
    pub refusal: u8,
    pub card: [u8; CARD_BYTES],
}

// What ANSWER gives: the refusal's number or 0, the bytes written, the fault offset or rules::NO_FAULT, the next card.
#[derive(Clone, Copy)]
pub struct CardAnswered {
    pub refusal: u8,
    pub count: usize,
    pub fault_offset: usize,
    pub card: [u8; CARD_BYTES],
}

// What SEAL and UNSEAL give: the refusal's number or 0, the bytes written, the next session.
#[derive(Clone, Copy)]
pub struct Sealed {
    pub refusal: u8,
    pub count: usize,
    pub session: [u8; SESSION_BYTES],
}

// What WALK gives: the refusal's number or 0, the fields counted, the fault offset or 0.
#[derive(Clone, Copy)]
pub struct WalkAnswered {
    pub refusal: u8,
    pub count: usize,
    pub fault_offset: usize,
}

pub fn fresh(
    uid: [u8; card::UID_BYTES],
    public_key: [u8; card::PUBLIC_KEY_BYTES],
) -> [u8; CARD_BYTES]
    ensures { result ≡ card_flat (fresh_of uid public_key) }
{
    let new = Card::fresh(uid, public_key);
    soft_card_put::record_of(new)
}

pub fn sound(bytes: [u8; CARD_BYTES]) -> bool
    ensures { result ≡ is_sound (card_at bytes) }
{
    let found = soft_card_bytes::card_of(bytes);
    sound::sound(found)
}

pub fn reset(bytes: [u8; CARD_BYTES]) -> CardGiven
    ensures { result ≡ answer_flat (reset_answer (card_at bytes)) }
{
    let found = soft_card_bytes::card_of(bytes);
    let r = sound::reset(found);
    let card = soft_card_put::record_of(r.card);
    CardGiven {
        refusal: r.refusal,
        card,
    }
}

pub fn ask(bytes: [u8; CARD_BYTES], cmd: &[u8], buf: &mut [u8]) -> Asked
    ensures { AskDid (ask_out (card_at bytes) cmd.now (length buf.old)) result buf.old buf.new }
{
    let found = soft_card_bytes::card_of(bytes);
    engine::ask(found, cmd, buf)
}

pub fn answer(bytes: [u8; CARD_BYTES], cmd: &[u8], supply: &[u8], buf: &mut [u8]) -> CardAnswered
    ensures { CardDid (answer_out (card_at bytes) cmd.now supply.now (length buf.old)) result
        buf.old buf.new }
{
    let found = soft_card_bytes::card_of(bytes);
    let r = engine::answer(found, cmd, supply, buf);
    let next = soft_card_put::record_of(r.card);
    CardAnswered {
        refusal: r.refusal,
        count: r.count,
        fault_offset: r.fault_offset,
        card: next,
    }
}

pub fn write(bytes: [u8; CARD_BYTES], buf: &mut [u8]) -> Written
    ensures { WroteRecord (card_at bytes) result buf.old buf.new }
{
    let found = soft_card_bytes::card_of(bytes);
    record_write::write(found, buf)
}

pub fn read(stored: &[u8]) -> CardGiven
    ensures { result ≡ answer_flat (read_answer stored.now) }
{
    let r = record_read::read(stored);
    let card = soft_card_put::record_of(r.card);
    CardGiven {
        refusal: r.refusal,
        card,
    }
}

// The header is CLA INS P1 P2.
pub fn seal(session: [u8; SESSION_BYTES], header: [u8; 4], plain: &[u8], buf: &mut [u8]) -> Sealed
    ensures { SessionDid (seal_out (session_at session) header plain.now (length buf.old)) result buf.old buf.new }
{
    let found = soft_card_bytes::session_of(session);
    let sealed = channel_terminal::seal(
        found, header[0], header[1], header[2], header[3], plain, buf,
    );
    let next = soft_card_put::session_bytes(sealed.session);
    Sealed {
        refusal: sealed.refusal,
        count: sealed.count,
        session: next,
    }
}

pub fn unseal(session: [u8; SESSION_BYTES], response: &[u8], buf: &mut [u8]) -> Sealed
    ensures { SessionDid (unseal_out (session_at session) response.now (length buf.old)) result buf.old buf.new }
{
    let found = soft_card_bytes::session_of(session);
    let opened = channel_unseal::unseal(found, response, buf);
    let next = soft_card_put::session_bytes(opened.session);
    Sealed {
        refusal: opened.refusal,
        count: opened.count,
        session: next,
    }
}

pub fn walk(input: &[u8]) -> WalkAnswered
    ensures { (result.refusal ≡ (WALK input.now).refusal) × (result.count ≡ (WALK input.now).count)
        × (result.fault_offset ≡ (WALK input.now).offset) }
{
    let w = template_walk::walk(input);
    let refusal = template_walk::refusal(w);
    let count = template_walk::count(w);
    let fault_offset = template_walk::fault_offset(w);
    WalkAnswered {
        refusal,
        count,
        fault_offset,
    }
}
