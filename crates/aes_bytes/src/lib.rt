// The operations of AES on one byte: the S-box, its inverse, and the products of the field.
// A table has 256 bytes; a byte is looked up in it.
// Proved: the two constant tables are FIPS 197's, and each function gives what the field's rule says, for every byte.
#![tactic(auto)]

ghost use Rattle.std.specs.Prelude.{◌≡◌};
ghost use Rattle.aes_field.specs.Field.{x_times, sub_byte, inv_sub_byte};
ghost use Rattle.aes_field.specs.Tables.{sbox, inv_sbox};
ghost use Rattle.aes_bytes.specs.Products.{products_of};

mod inverse;
mod sbox;

// The S-box as a value. A constant table is copied where it is named, so this is called once and its result is handed down.
pub fn sbox_table() -> [u8; 256]
    ensures { result ≡ sbox }
{
    sbox::SBOX
}

// The inverse S-box as a value, to be handed down likewise.
pub fn inv_sbox_table() -> [u8; 256]
    ensures { result ≡ inv_sbox }
{
    inverse::INV_SBOX
}

// SBOX of a byte, from the S-box's table.
pub fn sub_byte(table: &[u8; 256], b: u8) -> u8
    requires { table.now ≡ sbox }
    ensures { result ≡ sub_byte b }
{
    table[b as usize]
}

// INVSBOX of a byte, from the inverse S-box's table.
pub fn inv_sub_byte(table: &[u8; 256], b: u8) -> u8
    requires { table.now ≡ inv_sbox }
    ensures { result ≡ inv_sub_byte b }
{
    table[b as usize]
}

// XTIMES of a byte: its double in the field.
pub fn x_times(b: u8) -> u8
    ensures { result ≡ x_times b }
{
    (b << 1) ^ ((b >> 7) * 27)
}

// A byte's products by 9, 11, 13 and 14, which the inverse column step takes.
#[derive(Clone, Copy)]
pub struct Products {
    pub by_9: u8,
    pub by_11: u8,
    pub by_13: u8,
    pub by_14: u8,
}

// Three doublings, each made once and used for all four products: twice the byte, four times and eight times.
pub fn products_of(b: u8) -> Products
    ensures { result ≡ products_of b }
{
    let b2 = x_times(b);
    let b4 = x_times(b2);
    let b8 = x_times(b4);
    Products {
        by_9: b ^ b8,
        by_11: b ^ (b2 ^ b8),
        by_13: b ^ (b4 ^ b8),
        by_14: b2 ^ (b4 ^ b8),
    }
}
