// AES-256 in CBC mode, in place on a slice of the caller's, and CBC-MAC.
// A key has 32 bytes, an IV and a MAC 16 bytes; the data is a number of whole blocks of 16 bytes, none included.
// Proved: every byte of the slice is the definition's; decryption undoes encryption and encryption undoes decryption, for every length.
#![tactic(auto)]

ghost use Rattle.std.specs.Prelude.{◌≡◌, ◌++◌, ◌%◌, length};
ghost use Rattle.aes_field.specs.Tables.{sbox, inv_sbox};
ghost use Rattle.aes_rules.specs.Cipher.{cipher};
ghost use Rattle.aes_rules.specs.InvCipher.{inv_cipher};
ghost use Rattle.aes_rules.specs.Aes.{aes256, inv_aes256};
ghost use Rattle.aes_cbc.specs.Mode.{encrypt_block, decrypt_block, cbc_encrypt, cbc_decrypt, last_block, cbc_mac};

use octets::BLOCK_BYTES;

// Enciphers the block in `part`, chained to the block before it; the answer is the ciphertext block.
fn encrypt_part(table: &[u8; 256], w: &[u8], prev: [u8; 16], part: &mut [u8]) -> [u8; 16]
    requires table_value { table.now ≡ sbox }
    requires w_len { length w.now ≡ 240 }
    requires part_len { length part.old ≡ 16 }
    ensures value { result ≡ encrypt_block (cipher w.now) prev part.old }
    ensures part_after { part.new ≡ result }
{
    let plain = octets::block(part);
    let ciphertext = aes_encrypt::encrypt_block(table, w, octets::xor_blocks(plain, prev));
    part.copy_from_slice(&ciphertext);
    ciphertext
}

fn encrypt_blocks(table: &[u8; 256], w: &[u8], iv: [u8; 16], buf: &mut [u8])
    requires table_value { table.now ≡ sbox }
    requires w_len { length w.now ≡ 240 }
    requires buf_len { length buf.old % 16 ≡ 0 }
    ensures { buf.new ≡ cbc_encrypt (cipher w.now) iv buf.old }
{
    let mut prev = iv;
    // By the block's number: after a for over `chunks_exact_mut` a proof knows no byte of the slice.
    for n in 0..buf.len() / BLOCK_BYTES {
        let at = n * BLOCK_BYTES;
        let c = encrypt_part(table, w, prev, &mut buf[at..at + BLOCK_BYTES]);
        prev = c;
    }
}

// CBC encryption, in place.
pub fn cbc_encrypt(key: &[u8; 32], iv: [u8; 16], buf: &mut [u8])
    requires { length buf.old % 16 ≡ 0 }
    ensures { buf.new ≡ cbc_encrypt (aes256 key.now) iv buf.old }
{
    let table = aes_bytes::sbox_table();
    let w = aes_keys::key_expansion(&table, key);
    encrypt_blocks(&table, &w, iv, buf);
}

// Deciphers the block in `part`, chained to the ciphertext block before it; the answer is the ciphertext block that was there.
fn decrypt_part(table: &[u8; 256], w: &[u8], prev: [u8; 16], part: &mut [u8]) -> [u8; 16]
    requires table_value { table.now ≡ inv_sbox }
    requires w_len { length w.now ≡ 240 }
    requires part_len { length part.old ≡ 16 }
    ensures value { result ≡ part.old }
    ensures part_after { part.new ≡ decrypt_block (inv_cipher w.now) prev part.old }
{
    let taken = octets::block(part);
    let plain = octets::xor_blocks(aes_decrypt::decrypt_block(table, w, taken), prev);
    part.copy_from_slice(&plain);
    taken
}

fn decrypt_blocks(table: &[u8; 256], w: &[u8], iv: [u8; 16], buf: &mut [u8])
    requires table_value { table.now ≡ inv_sbox }
    requires w_len { length w.now ≡ 240 }
    requires buf_len { length buf.old % 16 ≡ 0 }
    ensures { buf.new ≡ cbc_decrypt (inv_cipher w.now) iv buf.old }
{
    let mut prev = iv;
    // By the block's number: after a for over `chunks_exact_mut` a proof knows no byte of the slice.
    for n in 0..buf.len() / BLOCK_BYTES {
        let at = n * BLOCK_BYTES;
        let c = decrypt_part(table, w, prev, &mut buf[at..at + BLOCK_BYTES]);
        prev = c;
    }
}

// CBC decryption, in place.
pub fn cbc_decrypt(key: &[u8; 32], iv: [u8; 16], buf: &mut [u8])
    requires { length buf.old % 16 ≡ 0 }
    ensures { buf.new ≡ cbc_decrypt (inv_aes256 key.now) iv buf.old }
{
    let table = aes_bytes::sbox_table();
    let w = aes_keys::key_expansion(&table, key);
    let inverse = aes_bytes::inv_sbox_table();
    decrypt_blocks(&inverse, &w, iv, buf);
}

// The last block of the encryption of xs, which is not written anywhere; the IV where xs is empty.
fn last_block(table: &[u8; 256], w: &[u8], iv: [u8; 16], xs: &[u8]) -> [u8; 16]
    requires table_value { table.now ≡ sbox }
    requires w_len { length w.now ≡ 240 }
    requires xs_len { length xs.now % 16 ≡ 0 }
    ensures { result ≡ last_block iv (cbc_encrypt (cipher w.now) iv xs.now) }
{
    let (blocks, _) = xs.as_chunks::<16>();
    let mut prev = iv;
    for plain in blocks {
        let c = aes_encrypt::encrypt_block(table, w, octets::xor_blocks(*plain, prev));
        prev = c;
    }
    prev
}

// CBC-MAC of the head block and xs joined.
pub fn cbc_mac(key: &[u8; 32], head: [u8; 16], xs: &[u8]) -> [u8; 16]
    requires { length xs.now % 16 ≡ 0 }
    ensures { result ≡ cbc_mac (aes256 key.now) (head ++ xs.now) }
{
    let table = aes_bytes::sbox_table();
    let w = aes_keys::key_expansion(&table, key);
    let first = aes_encrypt::encrypt_block(&table, &w, head);
    last_block(&table, &w, first, xs)
}
