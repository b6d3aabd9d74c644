// The card's end of the channel: its session, and the card after a message.
// Keys and IV are in bytes.
// Proved: the session and the next card are the rulebook's, for any card.
#![tactic(auto)]

ghost use Rattle.std.specs.Prelude.{◌≡◌};
ghost use Rattle.rules.specs.Channel.{session_of, with_mac};

use card::{Card, Channel};
use channel_rules::Session;

// The card's end of the channel.
pub fn session_of(channel: Channel) -> Session
    ensures { result ≡ session_of channel }
{
    // Written by hand: both types are of other crates, and an impl of From may stand only in one of theirs.
    let Channel {
        enc_key,
        mac_key,
        iv,
        ..
    } = channel;
    Session {
        enc_key,
        mac_key,
        iv,
    }
}

// The card after a message with this MAC was sealed or opened.
pub fn with_mac(mut card: Card, mac: [u8; 16]) -> Card
    ensures { result ≡ with_mac card mac }
{
    card.channel.iv = mac;
    card
}
