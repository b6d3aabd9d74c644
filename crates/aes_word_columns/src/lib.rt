// One column of a state after SubBytes, ShiftRows and MixColumns, from the four tables; and after SubBytes and ShiftRows alone.
// A column is a word of 32 bits, its lowest byte in row 0; a table has 256 words.
// Proved: the column has the bytes of the definition, for all words.
#![tactic(auto)]

ghost use Rattle.std.specs.Prelude.{◌≡◌, [], ◌∷◌, ◌<◌};
ghost use Rattle.octets.specs.Bytes.{xor_bytes};
ghost use Rattle.aes_field.specs.Field.{sub_byte};
ghost use Rattle.aes_words.specs.Words.{word_bytes};
ghost use Rattle.aes_tables.specs.Tables.{table2, FourTables};
ghost use Rattle.aes_word_columns.specs.Columns.{mixed_column, sub0, sub1, sub2, sub3};

// The column that takes its rows from a, b, c and d, with a word k of the schedule added. That word comes first: it is known before the state is.
pub fn mix_column(
    t0: &[u32; 256],
    t1: &[u32; 256],
    t2: &[u32; 256],
    t3: &[u32; 256],
    k: u32,
    a: u32,
    b: u32,
    c: u32,
    d: u32,
) -> u32
    requires { FourTables t0.now t1.now t2.now t3.now }
    ensures { word_bytes result ≡ xor_bytes (mixed_column (sub0 a) (sub1 b) (sub2 c) (sub3 d)) (word_bytes k) }
{
    k ^ t0[(a % 256) as usize]
        ^ t1[(b / 256 % 256) as usize]
        ^ t2[(c / 65536 % 256) as usize]
        ^ t3[(d / 16777216 % 256) as usize]
}

// SBOX of a byte: the lowest byte of its entry in the table for row 2 is SBOX of it, once.
fn sub_byte(t2: &[u32; 256], b: u32) -> u8
    requires t2_value { t2.now ≡ table2 }
    requires b_bound { b < 256 }
    ensures { result ≡ sub_byte b }
{
    (t2[b as usize] % 256) as u8
}

// The column that takes its rows from a, b, c and d, each byte through the S-box.
pub fn sub_column(t2: &[u32; 256], a: u32, b: u32, c: u32, d: u32) -> u32
    requires { t2.now ≡ table2 }
    ensures { word_bytes result ≡ sub0 a ∷ sub1 b ∷ sub2 c ∷ sub3 d ∷ [] }
{
    aes_words::word_of(
        sub_byte(t2, a % 256),
        sub_byte(t2, b / 256 % 256),
        sub_byte(t2, c / 65536 % 256),
        sub_byte(t2, d / 16777216 % 256),
    )
}

// The word whose bytes are those of x turned by one place, the second first, each through the S-box.
pub fn sub_turned(t2: &[u32; 256], x: u32) -> u32
    requires { t2.now ≡ table2 }
    ensures { word_bytes result ≡ sub1 x ∷ sub2 x ∷ sub3 x ∷ sub0 x ∷ [] }
{
    aes_words::word_of(
        sub_byte(t2, x / 256 % 256),
        sub_byte(t2, x / 65536 % 256),
        sub_byte(t2, x / 16777216 % 256),
        sub_byte(t2, x % 256),
    )
}
