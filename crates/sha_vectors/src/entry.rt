// An entry of a file, and what the lines of a file say.
ghost use Rattle.std.specs.Prelude.{◌&&◌};
ghost use Rattle.std.specs.Option.{is_none};

use vector_files::Line;

// A name of a value.
#[derive(Clone, Copy)]
pub enum Name {
    // The message's length in bits.
    Bits,
    Message,
    Digest,
}

// The texts of an entry's values, where it has them.
#[derive(Clone, Copy)]
pub struct Entry<'a> {
    pub bits: Option<&'a [u8]>,
    pub message: Option<&'a [u8]>,
    pub digest: Option<&'a [u8]>,
}

// The files have no sections. A line in brackets says how long the digests are, in bytes; it is passed over, as each digest is read whole.
impl<'a> vector_files::Entry<'a> for Entry<'a> {
    ghost empty = { λ e. is_none e.bits && is_none e.message && is_none e.digest };

    type Section = ();

    type Name = Name;

    fn line(line: &'a [u8]) -> Line<'a, (), Name> {
        match line {
            [] => Line::Blank,
            [b'#' | b'[', ..] => Line::Comment,
            _ => vector_files::value_line(
                line,
                &[
                    ("Len = ", Name::Bits),
                    ("Msg = ", Name::Message),
                    ("MD = ", Name::Digest),
                ],
            ),
        }
    }

    fn begin(_section: Option<()>) -> Self {
        Entry {
            bits: None,
            message: None,
            digest: None,
        }
    }

    fn section(&self) -> Option<()> {
        None
    }

    fn is_empty(&self) -> bool {
        self.bits.is_none() && self.message.is_none() && self.digest.is_none()
    }

    fn put(&mut self, name: Name, value: &'a [u8]) -> bool {
        let place = match name {
            Name::Bits => &mut self.bits,
            Name::Message => &mut self.message,
            Name::Digest => &mut self.digest,
        };
        let is_new = place.is_none();
        if is_new {
            *place = Some(value);
        }
        is_new
    }
}
