// The padding of SHA-256: the end of a message with the byte 80, zeros and the message's length behind it.
// Lengths are in bytes, but for the one that the padding holds, which is in bits; a block has 64 bytes.
// Proved: the padded end is the definition's, for every message.
#![tactic(auto)]

ghost use Rattle.std.specs.Prelude.{◌≡◌, ◌++◌, ◌+◌, ◌%◌, length, take};
ghost use Rattle.sha_rules.specs.Padding.{big_endian, length_in_bits, padding_bytes, padding};

// A block, in bytes.
pub const BLOCK_BYTES: usize = 64;

// The field of the padding that holds the message's length, in bytes.
const LENGTH_BYTES: usize = 8;

// The byte after the message: the standard's one bit, and seven zero bits.
const FIRST_PADDING_BYTE: u8 = 0x80;

// The length of a message of l bytes as the padding holds it: in bits, modulo 2^64, the highest byte first.
fn length_field(l: usize) -> [u8; 8]
    ensures { result ≡ big_endian 8 (length_in_bits l) }
{
    let bits = l % 0x2000_0000_0000_0000 * 8;
    bits.to_be_bytes()
}

// How many bytes the end of a message of l bytes has with the padding behind it: those of one block, or of two.
pub fn end_bytes(l: usize) -> usize
    ensures { result ≡ l % 64 + padding_bytes l }
{
    (l % BLOCK_BYTES + 72) / BLOCK_BYTES * BLOCK_BYTES
}

// What is left of a message of l bytes after its whole blocks, with the padding behind it: one block, or two.
pub fn padded(rest: &[u8], l: usize) -> [u8; 128]
    requires { length rest.now ≡ l % 64 }
    ensures { take (l % 64 + padding_bytes l) result ≡ rest.now ++ padding l }
{
    let used = rest.len();
    let end = end_bytes(l);
    let mut last = [0u8; 128];
    octets::put(&mut last, 0, rest);
    last[used] = FIRST_PADDING_BYTE;
    octets::put(&mut last, end - LENGTH_BYTES, &length_field(l));
    last
}
