// The word numbers of an entropy, written into a buffer: each 11 bits, in 2 bytes with the high byte first.
// Entropy and buffer are in bytes, the checksum in bits.
// Proved: the bytes written are the definition's, from the buffer's start, and no other byte changes.
#![tactic(auto)]

ghost use Rattle.std.specs.Prelude.{◌≡◌, ◌∷◌, [], ◌++◌, ◌+◌, ◌*◌, ◌/◌, ◌%◌, ◌≤◌, ◌<◌, length, get_or, take};
ghost use Rattle.sha_rules.specs.Hash.{sha256};
ghost use Rattle.phrase_numbers.specs.Put.{PutNumbers};

// 32 bits of entropy have one bit of checksum.
const BITS_PER_CHECKSUM_BIT: usize = 32;

// A bit of the checksum has 3 numbers.
const NUMBERS_PER_CHECKSUM_BIT: usize = 3;

// An entropy, the first byte of its hash, and two zeros, so that three bytes can be read at every number.
const STREAM_BYTES: usize = 35;

// The size of an entropy's checksum, in bits.
pub fn checksum_bits(entropy_bytes: usize) -> usize
    requires { entropy_bytes ≤ 32 }
    ensures { result ≡ entropy_bytes * 8 / 32 }
{
    entropy_bytes * phrase_bits::BYTE_BITS / BITS_PER_CHECKSUM_BIT
}

// The entropy with the first byte of its SHA-256 after it, whose first bits are the checksum.
fn joined(entropy: &[u8]) -> [u8; 35]
    requires { length entropy.now ≤ 32 }
    ensures { take (length entropy.now + 1) result ≡ entropy.now ++ (get_or (sha256 entropy.now) 0 0 ∷ []) }
{
    let end = entropy.len();
    let digest = sha_hash::sha256(entropy);
    let mut stream = [0u8; STREAM_BYTES];
    octets::put(&mut stream, 0, entropy);
    stream[end] = digest[0];
    stream
}

// A number as two bytes, the high byte first.
fn two_bytes(x: u32) -> [u8; 2]
    requires { x < 2048 }
    ensures { result ≡ x / 256 ∷ x % 256 ∷ [] }
{
    (x as u16).to_be_bytes()
}

// Writes the word numbers of an entropy from the buffer's start, and gives their length in bytes.
pub fn put_numbers(entropy: &[u8], out: &mut [u8]) -> usize
    requires entropy_len_bound { length entropy.now ≤ 32 }
    requires entropy_len { length entropy.now % 4 ≡ 0 }
    requires entropy_in_bounds { length entropy.now / 4 * 6 ≤ length out.old }
    ensures { PutNumbers entropy.now result out.old out.new }
{
    let numbers = NUMBERS_PER_CHECKSUM_BIT * checksum_bits(entropy.len());
    let stream = joined(entropy);
    for k in 0..numbers {
        let x = phrase_bits::number_at(&stream, k);
        octets::put(out, 2 * k, &two_bytes(x));
    }
    2 * numbers
}
