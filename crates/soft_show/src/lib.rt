// What the soft card writes of a card and of a session.
// Every length and place is in bytes.
// Proved: every function is safe and ends.
#![tactic(auto)]

mod fields;

use card::SLOT_BYTES;
pub use fields::{FIELDS, Field};
use soft_card_bytes::{
    CARD_BYTES, CHANNEL_AT, CURRENT_AT, KEYS_AT, PENDING_AT, PIN_TRIES_AT, PINLESS_AT,
    PUK_TRIES_AT, SESSION_BYTES, SLOTS_AT, TAP_AT, VERIFIED_AT,
};
use std::io;
use text_print::{Bytes, Length};

// How much of a room is in use: of a path's, or of the tap record's.
fn used(len: u8) -> Length {
    Length(card::wide(len))
}

// One line for the card.
pub fn say_card(rt: &impl Print, card: &[u8; CARD_BYTES]) -> io::Result<()> {
    print!(rt;
        "  card: initialised {}, stage {}",
        card[0], card[CHANNEL_AT]
    )?;
    print!(rt;
        ", verified {}, PIN tries {}, PUK tries {}, slots",
        card[VERIFIED_AT], card[PIN_TRIES_AT], card[PUK_TRIES_AT]
    )?;
    for slot in card[SLOTS_AT..PENDING_AT].chunks(SLOT_BYTES) {
        print!(rt; " {}", slot[0])?;
    }
    print!(rt;
        ", pending {}, key kind {}",
        card[PENDING_AT], card[KEYS_AT]
    )?;
    println!(rt;
        ", current path {}, PIN-less path {}, tap record {}",
        used(card[CURRENT_AT]),
        used(card[PINLESS_AT]),
        used(card[TAP_AT])
    )
}

// The length of the card, and each field as a line: its name, its length and its bytes.
pub fn say_fields(rt: &impl Print, card: &[u8; CARD_BYTES]) -> io::Result<()> {
    println!(rt; "card: {}", Length(CARD_BYTES))?;
    for field in &FIELDS {
        println!(rt; "  {} {}", field.name, Bytes(field.of(card)))?;
    }
    Ok(())
}

pub fn say_session(rt: &impl Print, session: [u8; SESSION_BYTES]) -> io::Result<()> {
    let parts = soft_card_bytes::session_of(session);
    println!(rt; "session: {}", Length(SESSION_BYTES))?;
    println!(rt; "  enc_key {}", Bytes(&parts.enc_key))?;
    println!(rt; "  mac_key {}", Bytes(&parts.mac_key))?;
    println!(rt; "  iv {}", Bytes(&parts.iv))
}
