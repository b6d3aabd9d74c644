// What the types say of a card, which the claims on terminal and card together take as a hypothesis (`Typed`).
// Every length is in bytes.
// Proved: every card that code holds meets it, by its type alone.
#![tactic(auto)]

ghost use Rattle.octets.specs.Bytes.{Bytes};
ghost use Rattle.laws_exchange.specs.Exchange.{Typed};

use card::{Card, PATH_MAX_BYTES};
use channel_rules::Session;

// Each function gives its argument back, or counts its bytes. Its contract is what the type says of it.
fn path_bytes(p: [u8; PATH_MAX_BYTES]) -> usize
    ensures { Bytes p }
{
    octets_types::slice(&p)
}

// The card as it is.
pub fn typed(card: Card) -> Card
    ensures { Typed card }
{
    let channel = card.channel;
    let enc_key = channel.enc_key;
    let mac_key = channel.mac_key;
    let iv = channel.iv;
    let session = Session {
        enc_key,
        mac_key,
        iv,
    };
    let keys = card.keys;
    let current = keys.current;
    let bytes = current.bytes;
    path_bytes(bytes);
    channel_types::keyed(session);
    card_types::shaped(card);
    card
}
