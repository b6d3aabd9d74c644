// AES-256 of one block under a key, by each of the two engines: the plain one, byte by byte, and the one from four tables of words.
// A key has 32 bytes, a block 16 bytes.
// Proved: both give AES-256 of FIPS 197, so that both give the same, for every key and block.
#![tactic(auto)]

ghost use Rattle.std.specs.Prelude.{◌≡◌, true};
ghost use Rattle.aes_rules.specs.Aes.{aes256};
ghost use Rattle.aes_engines.specs.Engines.{Enciphered};

// By the plain engine.
pub fn encrypt_plainly(key: &[u8; 32], s: [u8; 16]) -> [u8; 16]
    ensures { result ≡ aes256 key.now s }
{
    let table = aes_bytes::sbox_table();
    let w = aes_keys::key_expansion(&table, key);
    aes_encrypt::encrypt_block(&table, &w, s)
}

// By the tables.
pub fn encrypt_by_tables(key: &[u8; 32], s: [u8; 16]) -> [u8; 16]
    ensures { result ≡ aes256 key.now s }
{
    let t0 = aes_tables::row_0();
    let t1 = aes_tables::row_1();
    let t2 = aes_tables::row_2();
    let t3 = aes_tables::row_3();
    let w = aes_word_keys::key_schedule(&t2, key);
    aes_word_encrypt::encrypt_block(&t0, &t1, &t2, &t3, &w, s)
}

// Whether both engines give the same: they always do.
pub fn agree(key: &[u8; 32], s: [u8; 16]) -> bool
    ensures { result ≡ true }
{
    let plain = encrypt_plainly(key, s);
    let tables = encrypt_by_tables(key, s);
    octets::same(&plain, &tables)
}

// What both engines give for one key and block.
#[derive(Clone, Copy)]
pub struct Both {
    pub plain: [u8; 16],
    pub tables: [u8; 16],
}

// By both: each block is AES-256 of the block, and the two are the same.
pub fn encrypt_by_both(key: &[u8; 32], s: [u8; 16]) -> Both
    ensures enciphered { Enciphered key.now s result.plain }
    ensures enciphered_2 { Enciphered key.now s result.tables }
    ensures plain_value { result.plain ≡ result.tables }
{
    let plain = encrypt_plainly(key, s);
    let tables = encrypt_by_tables(key, s);
    Both { plain, tables }
}
