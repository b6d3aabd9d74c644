// AES-256 in CBC mode by the second engine, from tables, the chain kept in words: encryption in place on a slice of the caller's.
// A key has 32 bytes, an IV 16 bytes; the data is a number of whole blocks of 16 bytes, none included.
// Proved: every byte of the slice is what the definitions of `aes_cbc` give, as the plain engine's.
#![tactic(auto)]

ghost use Rattle.std.specs.Prelude.{◌≡◌, ◌%◌, length};
ghost use Rattle.aes_rules.specs.Cipher.{cipher};
ghost use Rattle.aes_rules.specs.Aes.{aes256};
ghost use Rattle.aes_words.specs.Words.{bytes_of};
ghost use Rattle.aes_tables.specs.Tables.{FourTables};
ghost use Rattle.aes_cbc.specs.Mode.{encrypt_block, cbc_encrypt};

use octets::BLOCK_BYTES;

// Enciphers the block in `part`, chained to the block before it; the answer is the ciphertext block.
fn encrypt_part(
    t0: &[u32; 256],
    t1: &[u32; 256],
    t2: &[u32; 256],
    t3: &[u32; 256],
    w: &[u32],
    prev: [u32; 4],
    part: &mut [u8],
) -> [u32; 4]
    requires four_tables { FourTables t0.now t1.now t2.now t3.now }
    requires w_len { length w.now ≡ 60 }
    requires part_len { length part.old ≡ 16 }
    ensures result_value { bytes_of result ≡ encrypt_block (cipher (bytes_of w.now)) (bytes_of prev) part.old }
    ensures part_after { part.new ≡ bytes_of result }
{
    let plain = aes_words::slice_words(part);
    let ciphertext = aes_word_encrypt::encrypt_words(
        t0,
        t1,
        t2,
        t3,
        w,
        aes_word_blocks::xor_words(plain, prev),
    );
    aes_word_blocks::put_words(part, ciphertext);
    ciphertext
}

fn encrypt_blocks(
    t0: &[u32; 256],
    t1: &[u32; 256],
    t2: &[u32; 256],
    t3: &[u32; 256],
    w: &[u32],
    iv: [u8; 16],
    buf: &mut [u8],
)
    requires four_tables { FourTables t0.now t1.now t2.now t3.now }
    requires w_len { length w.now ≡ 60 }
    requires buf_len { length buf.old % 16 ≡ 0 }
    ensures { buf.new ≡ cbc_encrypt (cipher (bytes_of w.now)) iv buf.old }
{
    let mut prev = aes_words::block_words(iv);
    // By the block's number: after a for over `chunks_exact_mut` a proof knows no byte of the slice.
    for n in 0..buf.len() / BLOCK_BYTES {
        let at = n * BLOCK_BYTES;
        let c = encrypt_part(t0, t1, t2, t3, w, prev, &mut buf[at..at + BLOCK_BYTES]);
        prev = c;
    }
}

// CBC encryption, in place.
pub fn cbc_encrypt(key: &[u8; 32], iv: [u8; 16], buf: &mut [u8])
    requires { length buf.old % 16 ≡ 0 }
    ensures { buf.new ≡ cbc_encrypt (aes256 key.now) iv buf.old }
{
    let t0 = aes_tables::row_0();
    let t1 = aes_tables::row_1();
    let t2 = aes_tables::row_2();
    let t3 = aes_tables::row_3();
    let w = aes_word_keys::key_schedule(&t2, key);
    encrypt_blocks(&t0, &t1, &t2, &t3, &w, iv, buf);
}
