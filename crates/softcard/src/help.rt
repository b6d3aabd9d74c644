// The list of calls.
use std::io;
use text_print::Length;

pub fn help(rt: &impl Print) -> io::Result<()> {
    let uid = Length(card::UID_BYTES);
    let public_key = Length(card::PUBLIC_KEY_BYTES);
    let key_bytes = card::KEY_BYTES;
    let iv = Length(card::IV_BYTES);
    println!(rt;
        "fresh UID KEY                  a pre-initialised card; UID has {uid}, KEY {public_key}"
    )?;
    println!(rt; "reset                          power-up")?;
    println!(rt; "ask COMMAND [room N]           which supply the card will read")?;
    println!(rt; "answer COMMAND SUPPLY [room N] the card's response")?;
    println!(rt;
        "seal HEADER DATA [room N]      a sealed command; HEADER has 4 bytes, DATA at most 223 bytes"
    )?;
    println!(rt; "unseal RESPONSE [room N]       what a sealed response holds")?;
    println!(rt; "send HEADER DATA SUPPLY        seal, ask, answer and unseal")?;
    println!(rt;
        "walk BYTES                     how many fields that are no templates, or the faulty field"
    )?;
    println!(rt;
        "entropy WORDS [room N]         the entropy of the word numbers of a recovery phrase"
    )?;
    println!(rt; "write [room N]                 the card's stored record")?;
    println!(rt; "read RECORD                    the card of a stored record")?;
    println!(rt;
        "tap RECORD FACTORY             the tap record of a stored record, or the factory record"
    )?;
    println!(rt; "sound                          whether the card is sound")?;
    println!(rt; "card                           every field of the card")?;
    println!(rt; "set FIELD BYTES                puts bytes into a field of the card")?;
    println!(rt;
        "session [ENC MAC IV]           the terminal's session, or a new one: {key_bytes}, {key_bytes} and {iv}"
    )?;
    println!(rt; "session card                   the session of the card's channel")?;
    println!(rt;
        "Bytes: 00A4, 00*32 (32 times), A0+16 (16 rising), last, - (none), 01.11*32 (joined)."
    )?;
    println!(rt; "room N lends a buffer of N bytes, 0 to 1024. Every length is in bytes.")
}
