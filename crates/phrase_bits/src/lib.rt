// Numbers from bits, high bit first: the word numbers of 11 bits from bytes, and bytes from the word numbers.
// A width, and a place in a stream of bits, is in bits; a place in a slice is in bytes.
// Proved: each number is the one that the definition cuts from the bits at its place.
#![tactic(auto)]

ghost use Rattle.std.specs.Prelude.{◌≡◌, ◌+◌, ◌-◌, ◌*◌, ◌/◌, ◌%◌, ◌^◌, ◌≤◌, ◌<◌, length, get_or, take, drop};
ghost use Rattle.phrase_rules.specs.Bits.{bits, number};
ghost use Rattle.phrase_rules.specs.Reverse.{from_two_bytes};

pub const BYTE_BITS: usize = 8;

pub const NUMBER_BITS: usize = 11;

// An entropy has 4 bytes for each bit of its checksum.
pub const ENTROPY_BYTES_PER_CHECKSUM_BIT: usize = 4;

// How many numbers of 11 bits there are.
const NUMBERS: u32 = 2048;

// The bits after a number that three bytes begin with, and after a byte that two numbers begin with.
const BITS_AFTER_NUMBER: usize = 13;

const BITS_AFTER_BYTE: usize = 14;

// As many bits of x as `width_bits` says, with as many after them as `bits_after` says.
pub fn bits_at(x: u32, bits_after: usize, width_bits: usize) -> u32
    requires bits_after_bound { bits_after < 32 }
    requires width_bits_bound { width_bits < 32 }
    ensures { result ≡ x / 2 ^ bits_after % 2 ^ width_bits }
{
    (x >> bits_after) % (1 << width_bits)
}

// The first bits of a byte, high bit first, as one number.
pub fn first_bits(x: u8, width_bits: usize) -> u32
    requires { width_bits ≤ 8 }
    ensures { (result ≡ x / 2 ^ (8 - width_bits) % 2 ^ width_bits) × (x < 256) }
{
    bits_at(x as u32, BYTE_BITS - width_bits, width_bits)
}

// Three bytes as one number, the highest first.
fn three_bytes(a: u8, b: u8, c: u8) -> u32
    ensures { (result ≡ a * 65536 + b * 256 + c) × ((a < 256) × ((b < 256) × (c < 256))) }
{
    u32::from_be_bytes([0, a, b, c])
}

// Two bytes as one number, the high byte first.
fn two_bytes(a: u8, b: u8) -> u32
    ensures { result ≡ a * 256 + b }
{
    u32::from(u16::from_be_bytes([a, b]))
}

// Number k of 11 bits, of the bits of s: it lies in three bytes.
pub fn number_at(s: &[u8], k: usize) -> u32
    requires k_bound { k < 24 }
    requires k_in_bounds { k * 11 / 8 + 2 < length s.now }
    ensures { (result ≡ number (take 11 (drop (k * 11) (bits 8 s.now)))) × (result < 2048) }
{
    let first_bit = k * NUMBER_BITS;
    let at = first_bit / BYTE_BITS;
    let three = three_bytes(s[at], s[at + 1], s[at + 2]);
    bits_at(
        three,
        BITS_AFTER_NUMBER - first_bit % BYTE_BITS,
        NUMBER_BITS,
    )
}

// Number k of those that lie in two bytes each, the high byte first.
pub fn number_in(words: &[u8], k: usize) -> u32
    requires { 2 * k + 1 < length words.now }
    ensures { result ≡ get_or (from_two_bytes words.now) k 0 }
{
    let at = 2 * k;
    two_bytes(words[at], words[at + 1])
}

// The 11 low bits of number k of those.
pub fn low_bits_in(words: &[u8], k: usize) -> u32
    requires { 2 * k + 1 < length words.now }
    ensures { (result ≡ get_or (from_two_bytes words.now) k 0 % 2048) × (result < 2048) }
{
    number_in(words, k) % NUMBERS
}

// Byte k of the bits of numbers of 11 bits, which lie in two bytes each: it lies in two numbers.
pub fn byte_at(words: &[u8], k: usize) -> u32
    requires k_bound { k < 32 }
    requires k_in_bounds { 2 * (k * 8 / 11 + 1) + 1 < length words.now }
    ensures { (result ≡ number (take 8 (drop (k * 8) (bits 11 (from_two_bytes words.now))))) × (result < 256) }
{
    let first_bit = k * BYTE_BITS;
    let at = first_bit / NUMBER_BITS;
    let two = low_bits_in(words, at) * NUMBERS + low_bits_in(words, at + 1);
    bits_at(two, BITS_AFTER_BYTE - first_bit % NUMBER_BITS, BYTE_BITS)
}
