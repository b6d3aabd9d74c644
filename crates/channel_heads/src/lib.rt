// The head block of a command and of a response, over which the MAC is taken, and the lengths that a field may have.
// Every length is in bytes: a head block has 16, a field 32 to 240.
// Proved: each is the definition's.
#![tactic(auto)]

ghost use Rattle.std.specs.Prelude.{◌≡◌, ◌<◌};
ghost use Rattle.channel_rules.specs.Message.{command_head, response_head, field_form};

use channel_rules::{FIELD_MAX_BYTES, FIELD_MIN_BYTES, MAC_BYTES};

// The head block of a command: CLA INS P1 P2, Lc, and 11 zeros. Lc counts the MAC and the ciphertext, in bytes.
pub fn command_head(header: [u8; 4], ciphertext_bytes: usize) -> [u8; 16]
    requires { ciphertext_bytes < 240 }
    ensures { result ≡ command_head header ciphertext_bytes }
{
    let lc = (MAC_BYTES + ciphertext_bytes) as u8;
    [
        header[0], header[1], header[2], header[3], lc, 0, 0, 0, 0, 0, 0, 0, 0, 0, 0, 0,
    ]
}

// The head block of a response: Lr and 15 zeros. Lr counts the MAC and the ciphertext, in bytes.
pub fn response_head(ciphertext_bytes: usize) -> [u8; 16]
    requires { ciphertext_bytes < 240 }
    ensures { result ≡ response_head ciphertext_bytes }
{
    let lr = (MAC_BYTES + ciphertext_bytes) as u8;
    [lr, 0, 0, 0, 0, 0, 0, 0, 0, 0, 0, 0, 0, 0, 0, 0]
}

// Whether a field of this many bytes can be one: 32 to 240, and a multiple of 16.
pub fn well_formed(field_bytes: usize) -> bool
    ensures { result ≡ field_form field_bytes }
{
    let long_enough = FIELD_MIN_BYTES <= field_bytes;
    let short_enough = field_bytes <= FIELD_MAX_BYTES;
    let whole = field_bytes % 16 == 0;
    long_enough & short_enough & whole
}
