// The kinds of supply by name, with their lengths.
use std::fmt;

// A kind of supply, by the number that ASK gives it; 0 where the card reads no supply.
#[derive(Clone, Copy, PartialEq, Eq)]
pub struct Supply(pub u8);

impl Supply {
    pub const NONE: Supply = Supply(0);
}

impl fmt::Display for Supply {
    fn fmt<W: fmt::Write>(&self, f: &mut fmt::Formatter<W>) -> fmt::Result {
        write!(f, "kind {}, ", self.0)?;
        f.write_str(match self.0 {
            0 => "no supply is read",
            1 => "INIT: 33 bytes: flag, AES key 32",
            2 => "OPEN: 113 bytes: flag, enc key 32, MAC key 32, salt 32, IV 16",
            3 => "MUTUAL: 32 bytes: random",
            4 => "PAIR first: 32 bytes: challenge 32",
            5 => "PAIR final: 32 bytes: salt 32",
            6 => "LOAD: 66 bytes: flag, public key 65",
            7 => "DERIVE: 1 byte: flag",
            8 => "SIGN: 129 bytes: public key 65, r 32, s 32",
            9 => "EXPORT: 98 bytes: flag, public key 65, private key 32",
            _ => "MNEMONIC: 4 times P1 bytes: entropy",
        })
    }
}
