// Lists of bytes: the definitions and laws that every other crate cites, and the leaves that move and compare bytes.
// Every length is in bytes.
// Proved: a block is read as it is, bytes are written in their place and nowhere else, and two slices are called the same
// exactly where they are.
#![tactic(auto)]

ghost use Rattle.std.specs.Prelude.{◌≡◌, ◌+◌, ◌≤◌, ◌<◌, length, slice_index};
ghost use Rattle.std.specs.Int.Bits.{bit_xor};
ghost use Rattle.octets.specs.Bytes.{xor_bytes, overwrite, same_bytes};

use std::array;

// A block of AES, in bytes.
pub const BLOCK_BYTES: usize = 16;

// The block that a slice of 16 bytes holds.
pub fn block(s: &[u8]) -> [u8; 16]
    requires { length s.now ≡ 16 }
    ensures { result ≡ s.now }
{
    // Byte by byte: tried as `*s.as_array().unwrap()`, with which sealing 240 bytes takes a tenth longer.
    [
        s[0], s[1], s[2], s[3], s[4], s[5], s[6], s[7], s[8], s[9], s[10], s[11], s[12], s[13],
        s[14], s[15],
    ]
}

// The exclusive-or of two blocks, or of two words, of N bytes each.
pub fn xor_blocks<const N: usize>(s: [u8; N], k: [u8; N]) -> [u8; N]
    ensures { result ≡ xor_bytes s.entry k.entry }
{
    array::from_fn(
        |i| -> u8
            requires { i < N }
            ensures { result ≡ bit_xor (slice_index s i) (slice_index k i) }
        { s[i] ^ k[i] },
    )
}

// Writes src into buf, from byte `at` on.
pub fn put(buf: &mut [u8], at: usize, src: &[u8])
    requires { at + length src.now ≤ length buf.old }
    ensures { buf.new ≡ overwrite buf.old at src.now }
{
    buf[at..at + src.len()].copy_from_slice(src);
}

// Whether two slices hold the same bytes. Slices of the same length are compared to their end: the loop does not stop at the first difference.
pub fn same(a: &[u8], b: &[u8]) -> bool
    ensures { result ≡ same_bytes a.now b.now }
{
    if a.len() != b.len() {
        return false;
    }
    a.iter()
        .zip(b)
        .fold(true, |equal, (x, y)| equal & (*x == *y))
}
