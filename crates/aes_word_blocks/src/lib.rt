// Blocks of four words of 32 bits: their exclusive-or, and their bytes written over a slice of 16 bytes.
// Proved: each has, or leaves in the slice, the bytes of the definition.
#![tactic(auto)]

ghost use Rattle.std.specs.Prelude.{◌≡◌, length};
ghost use Rattle.octets.specs.Bytes.{xor_bytes};
ghost use Rattle.aes_words.specs.Words.{bytes_of};

use aes_words::block_bytes;

// The exclusive-or of two blocks of words.
pub fn xor_words(a: [u32; 4], b: [u32; 4]) -> [u32; 4]
    ensures { bytes_of result ≡ xor_bytes (bytes_of a) (bytes_of b) }
{
    [a[0] ^ b[0], a[1] ^ b[1], a[2] ^ b[2], a[3] ^ b[3]]
}

// Writes the bytes of four words over a slice of 16 bytes.
pub fn put_words(part: &mut [u8], s: [u32; 4])
    requires { length part.old ≡ 16 }
    ensures { part.new ≡ bytes_of s }
{
    part.copy_from_slice(&block_bytes(s));
}
