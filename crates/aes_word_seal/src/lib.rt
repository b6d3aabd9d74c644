// CBC encryption in place and the CBC-MAC over what it wrote, in one pass by the engine from tables: while a block is enciphered, the block
// before it goes through the MAC.
// A key has 32 bytes, an IV, a head block and a MAC 16 bytes; the data is a number of whole blocks of 16 bytes, none included.
// Proved: every byte of the slice, and the MAC, is what the definitions of `aes_cbc` give, as the plain engine's.
#![tactic(auto)]

ghost use Rattle.std.specs.Prelude.{◌≡◌, ◌++◌, ◌%◌, length};
ghost use Rattle.aes_rules.specs.Cipher.{cipher};
ghost use Rattle.aes_rules.specs.Aes.{aes256};
ghost use Rattle.aes_words.specs.Words.{bytes_of};
ghost use Rattle.aes_tables.specs.Tables.{FourTables};
ghost use Rattle.aes_cbc.specs.Mode.{encrypt_block, cbc_encrypt, cbc_mac};

use aes_word_pairs::Pair;
use octets::BLOCK_BYTES;

// Enciphers the block in `part` under the schedule w, chained to the block before it; beside it, the block that waits for the MAC goes
// through the cipher under the schedule v. The answer is the ciphertext block, and what became of the other.
fn seal_part(
    t0: &[u32; 256],
    t1: &[u32; 256],
    t2: &[u32; 256],
    t3: &[u32; 256],
    w: &[u32],
    v: &[u32],
    prev: [u32; 4],
    waiting: [u32; 4],
    part: &mut [u8],
) -> Pair
    requires four_tables { FourTables t0.now t1.now t2.now t3.now }
    requires w_len { length w.now ≡ 60 }
    requires v_len { length v.now ≡ 60 }
    requires part_len { length part.old ≡ 16 }
    ensures first_value { bytes_of result.first ≡ encrypt_block (cipher (bytes_of w.now)) (bytes_of prev) part.old }
    ensures second_value { bytes_of result.second ≡ cipher (bytes_of v.now) (bytes_of waiting) }
    ensures part_after { part.new ≡ bytes_of result.first }
{
    let plain = aes_words::slice_words(part);
    let chained = aes_word_blocks::xor_words(plain, prev);
    let pair = aes_word_pairs::encrypt_pair(t0, t1, t2, t3, w, v, chained, waiting);
    let ciphertext = pair.first;
    aes_word_blocks::put_words(part, ciphertext);
    pair
}

// The pass over all blocks; the answer is the MAC of the head block and the ciphertext joined.
fn seal_blocks(
    t0: &[u32; 256],
    t1: &[u32; 256],
    t2: &[u32; 256],
    t3: &[u32; 256],
    w: &[u32],
    v: &[u32],
    iv: [u8; 16],
    head: [u8; 16],
    buf: &mut [u8],
) -> [u8; 16]
    requires four_tables { FourTables t0.now t1.now t2.now t3.now }
    requires w_len { length w.now ≡ 60 }
    requires v_len { length v.now ≡ 60 }
    requires buf_len { length buf.old % 16 ≡ 0 }
    ensures buf_after { buf.new ≡ cbc_encrypt (cipher (bytes_of w.now)) iv buf.old }
    ensures value { result ≡ cbc_mac (cipher (bytes_of v.now)) (head ++ buf.new) }
{
    let mut prev = aes_words::block_words(iv);
    let mut waiting = aes_words::block_words(head);
    // By the block's number: after a for over `chunks_exact_mut` a proof knows no byte of the slice.
    for n in 0..buf.len() / BLOCK_BYTES {
        let at = n * BLOCK_BYTES;
        let part = &mut buf[at..at + BLOCK_BYTES];
        let pair = seal_part(t0, t1, t2, t3, w, v, prev, waiting, part);
        let c = pair.first;
        let m = pair.second;
        let next = aes_word_blocks::xor_words(c, m);
        prev = c;
        waiting = next;
    }
    let mac = aes_word_encrypt::encrypt_words(t0, t1, t2, t3, v, waiting);
    aes_words::block_bytes(mac)
}

// CBC encryption in place under `key` and the IV, and the CBC-MAC under `mac_key` of the head block and the ciphertext joined.
pub fn cbc_encrypt_and_mac(
    key: &[u8; 32],
    iv: [u8; 16],
    mac_key: &[u8; 32],
    head: [u8; 16],
    buf: &mut [u8],
) -> [u8; 16]
    requires { length buf.old % 16 ≡ 0 }
    ensures buf_after { buf.new ≡ cbc_encrypt (aes256 key.now) iv buf.old }
    ensures value { result ≡ cbc_mac (aes256 mac_key.now) (head ++ buf.new) }
{
    let t0 = aes_tables::row_0();
    let t1 = aes_tables::row_1();
    let t2 = aes_tables::row_2();
    let t3 = aes_tables::row_3();
    let w = aes_word_keys::key_schedule(&t2, key);
    let v = aes_word_keys::key_schedule(&t2, mac_key);
    seal_blocks(&t0, &t1, &t2, &t3, &w, &v, iv, head, buf)
}
