// The four tables of AES' engine from tables: SubBytes and MixColumns of one byte, as a word of 32 bits, for each row that the byte can be in.
// A table has 256 words. A constant table is copied where it is named, so each of these is called once and its result is handed down.
// Proved: each entry of each table is what the rule makes of the S-box's byte.
#![tactic(auto)]

ghost use Rattle.std.specs.Prelude.{◌≡◌};
ghost use Rattle.aes_tables.specs.Tables.{table0, table1, table2, table3};

mod tables;

// The table for bytes in row 0 as a value; likewise for the other rows.
pub fn row_0() -> [u32; 256]
    ensures { result ≡ table0 }
{
    tables::ROW_0
}

pub fn row_1() -> [u32; 256]
    ensures { result ≡ table1 }
{
    tables::ROW_1
}

pub fn row_2() -> [u32; 256]
    ensures { result ≡ table2 }
{
    tables::ROW_2
}

pub fn row_3() -> [u32; 256]
    ensures { result ≡ table3 }
{
    tables::ROW_3
}
