// What the programs write of lengths and bytes.
// Lengths are in bytes; bytes are written in hexadecimal, two digits each, in capitals.
// Proved: what bytes and lengths are written as.
#![tactic(auto)]

ghost use Rattle.std.specs.Prelude.{Some};
ghost use Rattle.text_print.specs.Text.{hex, length_text, bytes_text};

use std::fmt;

// Bytes in hexadecimal.
#[derive(Clone, Copy)]
pub struct Hex<'a>(pub &'a [u8]);

impl<'a> fmt::Display for Hex<'a> {
    ghost output = { λ x. Some (hex x.0.now) };

    fn fmt<W: fmt::Write>(&self, f: &mut fmt::Formatter<W>) -> fmt::Result {
        for b in self.0 {
            let b = *b;
            write!(f, "{b:02X}")?;
        }
        Ok(())
    }
}

// A length in bytes, with its unit.
#[derive(Clone, Copy)]
pub struct Length(pub usize);

impl fmt::Display for Length {
    ghost output = { λ x. Some (length_text x.0) };

    fn fmt<W: fmt::Write>(&self, f: &mut fmt::Formatter<W>) -> fmt::Result {
        let n = self.0;
        let unit = if n == 1 { "byte" } else { "bytes" };
        write!(f, "{n} {unit}")
    }
}

// Bytes with their number before them; where there are none, the number alone.
#[derive(Clone, Copy)]
pub struct Bytes<'a>(pub &'a [u8]);

impl<'a> fmt::Display for Bytes<'a> {
    ghost output = { λ x. Some (bytes_text x.0.now) };

    fn fmt<W: fmt::Write>(&self, f: &mut fmt::Formatter<W>) -> fmt::Result {
        let bytes = self.0;
        let length = Length(bytes.len());
        if bytes.is_empty() {
            return write!(f, "{length}");
        }
        let hex = Hex(bytes);
        write!(f, "{length}: {hex}")
    }
}
