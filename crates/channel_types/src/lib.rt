// What the types say of a session, which the laws of sealed messages take as a hypothesis.
// Every length is in bytes.
// Proved: every session that code holds has keys of 32 bytes and an IV of 16 bytes, by its type alone.
#![tactic(auto)]

ghost use Rattle.std.specs.Prelude.{◌≡◌};
ghost use Rattle.octets.specs.Bytes.{Block};
ghost use Rattle.aes_rules.specs.Aes.{Key};
ghost use Rattle.channel_rules.specs.Message.{Keyed};

use channel_rules::Session;

// Each function gives its argument back, or counts its bytes. Its contract is what the type says of it.
// Two functions and not one over a const parameter: docs/CLAIMS.md names each for what it says of a key and of a block.
pub fn key(k: [u8; 32]) -> usize
    ensures { Key k }
{
    octets_types::slice(&k)
}

pub fn block(b: [u8; 16]) -> usize
    ensures { Block b }
{
    octets_types::slice(&b)
}

// The session as it is.
pub fn keyed(s: Session) -> Session
    ensures { Keyed s }
{
    let enc_key = s.enc_key;
    let mac_key = s.mac_key;
    let iv = s.iv;
    key(enc_key);
    key(mac_key);
    block(iv);
    s
}
