// CIPHER of FIPS 197 by the engine from tables: AES-256 on one block, from the four tables and a key schedule in words.
// A block has 16 bytes or four words, a table 256 words, a schedule 60 words.
// Proved: the result is the definition's, for every schedule and block.
#![tactic(auto)]

ghost use Rattle.std.specs.Prelude.{◌≡◌, length};
ghost use Rattle.aes_rules.specs.Cipher.{cipher};
ghost use Rattle.aes_words.specs.Words.{bytes_of};
ghost use Rattle.aes_tables.specs.Tables.{FourTables};

use aes_keys::ROUNDS;

// CIPHER on four words: 14 rounds, the last with no MixColumns. The tables are handed in.
pub fn encrypt_words(
    t0: &[u32; 256],
    t1: &[u32; 256],
    t2: &[u32; 256],
    t3: &[u32; 256],
    w: &[u32],
    s: [u32; 4],
) -> [u32; 4]
    requires four_tables { FourTables t0.now t1.now t2.now t3.now }
    requires w_len { length w.now ≡ 60 }
    ensures { bytes_of result ≡ cipher (bytes_of w.now) (bytes_of s) }
{
    let mut t = aes_word_rounds::add_first_key(w, s);
    for r in 1..ROUNDS {
        let u = aes_word_rounds::round_of(t0, t1, t2, t3, w, r, t);
        t = u;
    }
    aes_word_rounds::last_round(t2, w, t)
}

// CIPHER on a block.
pub fn encrypt_block(
    t0: &[u32; 256],
    t1: &[u32; 256],
    t2: &[u32; 256],
    t3: &[u32; 256],
    w: &[u32],
    s: [u8; 16],
) -> [u8; 16]
    requires four_tables { FourTables t0.now t1.now t2.now t3.now }
    requires w_len { length w.now ≡ 60 }
    ensures { result ≡ cipher (bytes_of w.now) s }
{
    let plain = aes_words::block_words(s);
    let ciphertext = encrypt_words(t0, t1, t2, t3, w, plain);
    aes_words::block_bytes(ciphertext)
}
