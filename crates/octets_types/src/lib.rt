// What the types say of bytes, which the claims take as a hypothesis (`Bytes`).
// Every length is in bytes.
// Proved: the elements of every slice and of every header that code holds are bytes, by their type alone.
#![tactic(auto)]

ghost use Rattle.std.specs.Prelude.{◌≡◌, ◌<◌, length};
ghost use Rattle.octets.specs.Bytes.{Bytes};

// Each function gives its argument back, or counts its bytes. Its contract is what the type says of it.
fn byte(b: u8) -> u8
    ensures { b < 256 }
{
    b
}

// A slice of any length: a command, a supply, data, a response.
pub fn slice(s: &[u8]) -> usize
    ensures { Bytes s.now }
{
    for b in s {
        byte(*b);
    }
    s.len()
}

// The header of a command, CLA INS P1 P2, which SEAL takes.
pub fn header(h: &[u8; 4]) -> usize
    ensures { (length h.now ≡ 4) × Bytes h.now }
{
    slice(h)
}
