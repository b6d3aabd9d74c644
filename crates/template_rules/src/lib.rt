// Fields of templates: reading the head of a field, and the definitions and laws of fields and DER integers, read and written.
// Every length is in bytes.
// Proved: a head is read as the definitions of specs/ say, and by them what is written is read back and no other form is taken.
#![tactic(auto)]

ghost use Rattle.std.specs.Prelude.{◌≡◌};
ghost use Rattle.template_rules.specs.Template.{read_head, begins_with, HeadSays};

// The least length, in bytes, that takes the long form. A shorter one is its own length byte.
pub const LONG_FORM_MIN_BYTES: u8 = 128;
// The first byte of the long form; the second is the length.
pub const LONG_FORM: u8 = 0x81;
// The tag of a public key, which SELECT, SIGN and LOAD share.
pub const TAG_PUBLIC_KEY: u8 = 0x80;

// The tag of a DER integer.
pub const TAG_INTEGER: u8 = 0x02;

// What the head of a field, its tag and length, says: how many bytes it takes, and how many bytes of value follow. `HeadSays` of
// specs/Template.antt states each case, also that there is none.
#[derive(Clone, Copy)]
pub struct Head {
    pub head_bytes: usize,
    pub value_bytes: usize,
}

// The head of the field that begins s.
pub fn read_head(s: &[u8]) -> Option<Head>
    ensures { (result ≡ read_head s.now) × HeadSays s.now result }
{
    match *s {
        [_, n, ..] if n < LONG_FORM_MIN_BYTES => Some(Head {
            head_bytes: 2,
            value_bytes: n as usize,
        }),
        [_, LONG_FORM, n, ..] if LONG_FORM_MIN_BYTES <= n => Some(Head {
            head_bytes: 3,
            value_bytes: n as usize,
        }),
        _ => None,
    }
}

// Whether s begins with a field of this tag that has this many bytes of value.
pub fn begins_with(s: &[u8], tag: u8, value_bytes: usize) -> bool
    ensures { result ≡ begins_with tag value_bytes s.now }
{
    let Some(found) = read_head(s) else {
        return false;
    };
    s[0] == tag && found.value_bytes == value_bytes && value_bytes <= s.len() - found.head_bytes
}
