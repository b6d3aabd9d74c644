// SHA-256 of a message of any number of bytes, which is read in place and not copied.
// Lengths are in bytes; a block has 64 bytes, a digest 32.
// Proved: the digest is the definition's, for every message.
#![tactic(auto)]

ghost use Rattle.std.specs.Prelude.{◌≡◌, ◌++◌, ◌+◌, ◌/◌, ◌%◌, length};
ghost use Rattle.sha_rules.specs.Constants.{K};
ghost use Rattle.sha_rules.specs.Padding.{padding_bytes, padding};
ghost use Rattle.sha_rules.specs.Hash.{blocks, digest, sha256};

use sha_padding::BLOCK_BYTES;

// A digest, in bytes.
pub const DIGEST_BYTES: usize = 32;

const HASH_WORDS: usize = 8;

// The hash value after the blocks of s, from the one before them.
fn hash_blocks(k: &[u32; 64], h: [u32; 8], s: &[u8]) -> [u32; 8]
    requires k_value { k.now ≡ K }
    requires s_len { length s.now % 64 ≡ 0 }
    ensures { result ≡ blocks (length s.now / 64) h s.now }
{
    let mut v = h;
    // Blocks by their number: the loop over chunks_exact proves, and hashes 3 percent slower.
    for i in 0..s.len() / BLOCK_BYTES {
        let at = BLOCK_BYTES * i;
        let after = sha_blocks::compress_block(k, v, &s[at..at + BLOCK_BYTES]);
        v = after;
    }
    v
}

// The hash value after the message's end, from the one after its whole blocks.
fn hash_end(k: &[u32; 64], h: [u32; 8], rest: &[u8], l: usize) -> [u32; 8]
    requires k_value { k.now ≡ K }
    requires rest_len { length rest.now ≡ l % 64 }
    ensures { result ≡ blocks ((l % 64 + padding_bytes l) / 64) h (rest.now ++ padding l) }
{
    let last = sha_padding::padded(rest, l);
    let end = sha_padding::end_bytes(l);
    hash_blocks(k, h, &last[..end])
}

// The words of a hash value, one after the other.
fn digest_of(h: [u32; 8]) -> [u8; 32]
    ensures { result ≡ digest h }
{
    let mut r = [0u8; DIGEST_BYTES];
    for i in 0..HASH_WORDS {
        octets::put(&mut r, 4 * i, &h[i].to_be_bytes());
    }
    r
}

// SHA-256 of a message.
pub fn sha256(message: &[u8]) -> [u8; 32]
    ensures { result ≡ sha256 message.now }
{
    let k = sha_rounds::constants();
    let l = message.len();
    let whole = l / BLOCK_BYTES * BLOCK_BYTES;
    let h = hash_blocks(&k, sha_rounds::initial_hash(), &message[..whole]);
    digest_of(hash_end(&k, h, &message[whole..], l))
}
