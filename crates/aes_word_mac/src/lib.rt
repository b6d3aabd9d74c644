// CBC-MAC with AES-256 by the engine from tables, the chain kept in words.
// A key has 32 bytes, a head block and a MAC 16 bytes; the data is a number of whole blocks of 16 bytes, none included.
// Proved: the MAC is what the definition of `aes_cbc` gives, as the plain engine's.
#![tactic(auto)]

ghost use Rattle.std.specs.Prelude.{◌≡◌, ◌++◌, ◌%◌, length};
ghost use Rattle.aes_rules.specs.Cipher.{cipher};
ghost use Rattle.aes_rules.specs.Aes.{aes256};
ghost use Rattle.aes_words.specs.Words.{bytes_of};
ghost use Rattle.aes_tables.specs.Tables.{FourTables};
ghost use Rattle.aes_cbc.specs.Mode.{cbc_encrypt, last_block, cbc_mac};

// The last block of the encryption of xs, which is not written anywhere; the IV where xs is empty.
fn last_block(
    t0: &[u32; 256],
    t1: &[u32; 256],
    t2: &[u32; 256],
    t3: &[u32; 256],
    w: &[u32],
    iv: [u8; 16],
    xs: &[u8],
) -> [u8; 16]
    requires four_tables { FourTables t0.now t1.now t2.now t3.now }
    requires w_len { length w.now ≡ 60 }
    requires xs_len { length xs.now % 16 ≡ 0 }
    ensures { result ≡ last_block iv (cbc_encrypt (cipher (bytes_of w.now)) iv xs.now) }
{
    let (blocks, _) = xs.as_chunks::<16>();
    let mut prev = aes_words::block_words(iv);
    for plain in blocks {
        let c = aes_word_encrypt::encrypt_words(
            t0,
            t1,
            t2,
            t3,
            w,
            aes_word_blocks::xor_words(aes_words::block_words(*plain), prev),
        );
        prev = c;
    }
    aes_words::block_bytes(prev)
}

// CBC-MAC of the head block and xs joined.
pub fn cbc_mac(key: &[u8; 32], head: [u8; 16], xs: &[u8]) -> [u8; 16]
    requires { length xs.now % 16 ≡ 0 }
    ensures { result ≡ cbc_mac (aes256 key.now) (head ++ xs.now) }
{
    let t0 = aes_tables::row_0();
    let t1 = aes_tables::row_1();
    let t2 = aes_tables::row_2();
    let t3 = aes_tables::row_3();
    let w = aes_word_keys::key_schedule(&t2, key);
    let first = aes_word_encrypt::encrypt_block(&t0, &t1, &t2, &t3, &w, head);
    last_block(&t0, &t1, &t2, &t3, &w, first, xs)
}
