// An entry of a file, and what the lines of a file say.
ghost use Rattle.std.specs.Prelude.{◌&&◌};
ghost use Rattle.std.specs.Option.{is_none};

use std::fmt;
use vector_files::Line;

// A section of a file.
#[derive(Clone, Copy)]
pub enum Section {
    Encrypt,
    Decrypt,
}

impl fmt::Display for Section {
    fn fmt<W: fmt::Write>(&self, f: &mut fmt::Formatter<W>) -> fmt::Result {
        match self {
            Section::Encrypt => write!(f, "[ENCRYPT]"),
            Section::Decrypt => write!(f, "[DECRYPT]"),
        }
    }
}

// A name of a value.
#[derive(Clone, Copy)]
pub enum Name {
    Count,
    Key,
    Iv,
    Plaintext,
    Ciphertext,
}

// The texts of an entry's values, where it has them, and its section; it has none before the file's first.
#[derive(Clone, Copy)]
pub struct Entry<'a> {
    pub section: Option<Section>,
    pub count: Option<&'a [u8]>,
    pub key: Option<&'a [u8]>,
    pub iv: Option<&'a [u8]>,
    pub plaintext: Option<&'a [u8]>,
    pub ciphertext: Option<&'a [u8]>,
}

impl<'a> vector_files::Entry<'a> for Entry<'a> {
    ghost empty = { λ e. is_none e.count && is_none e.key && is_none e.iv && is_none e.plaintext && is_none e.ciphertext };

    type Section = Section;

    type Name = Name;

    fn line(line: &'a [u8]) -> Line<'a, Section, Name> {
        match line {
            [] => Line::Blank,
            [b'#', ..] => Line::Comment,
            b"[ENCRYPT]" => Line::Section(Section::Encrypt),
            b"[DECRYPT]" => Line::Section(Section::Decrypt),
            _ => vector_files::value_line(
                line,
                &[
                    ("COUNT = ", Name::Count),
                    ("KEY = ", Name::Key),
                    ("IV = ", Name::Iv),
                    ("PLAINTEXT = ", Name::Plaintext),
                    ("CIPHERTEXT = ", Name::Ciphertext),
                ],
            ),
        }
    }

    fn begin(section: Option<Section>) -> Self {
        Entry {
            section,
            count: None,
            key: None,
            iv: None,
            plaintext: None,
            ciphertext: None,
        }
    }

    fn section(&self) -> Option<Section> {
        self.section
    }

    fn is_empty(&self) -> bool {
        self.count.is_none()
            && self.key.is_none()
            && self.iv.is_none()
            && self.plaintext.is_none()
            && self.ciphertext.is_none()
    }

    fn put(&mut self, name: Name, value: &'a [u8]) -> bool {
        let place = match name {
            Name::Count => &mut self.count,
            Name::Key => &mut self.key,
            Name::Iv => &mut self.iv,
            Name::Plaintext => &mut self.plaintext,
            Name::Ciphertext => &mut self.ciphertext,
        };
        let is_new = place.is_none();
        if is_new {
            *place = Some(value);
        }
        is_new
    }
}
