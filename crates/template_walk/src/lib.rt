// WALK (RULES 9.3): how many fields that are not templates some bytes hold, or why they are no templates.
// Every length and place is in bytes; depth is counted in templates, a template at the top being at depth 1.
// Proved: for any bytes the answer is what the definition of WALK gives. Calls nest only as deep as templates do.
#![tactic(auto)]

ghost use Rattle.std.specs.Prelude.{◌≡◌};
ghost use Rattle.template_walk.specs.Walk.{read_field, template_of, sequence_of, walk_of, report, WALK};
ghost use Rattle.template_walk.specs.Handed.{handed};

use refusals::{REFUSAL_MALFORMED, REFUSAL_NONE, REFUSAL_TOO_DEEP};
use template_rules::read_head;

// The deepest templates that are read are at this depth.
pub const MAX_DEPTH: usize = 4;
// A tag with this bit marks a template, a field whose value is a sequence of fields.
pub const TEMPLATE_BIT: u8 = 0x20;

// Why a field is not one that may stand where it does.
#[derive(Clone, Copy, PartialEq, Eq)]
pub enum Fault {
    Malformed,
    TooDeep,
}

// A fault, and the place of its field: how many bytes come before the tag.
#[derive(Clone, Copy)]
pub struct Refused {
    pub fault: Fault,
    pub place: usize,
}

// One field: how many fields that are not templates it is or holds, and its length in bytes.
#[derive(Clone, Copy)]
pub struct Whole {
    pub fields: usize,
    pub bytes: usize,
}

// What a sequence of fields comes to, as the calls that nest hand it up: in 16 bytes of stack, where a result takes 24.
enum Sequence {
    Fields(usize),
    Faulty { fault: Fault, place: usize },
}

// The field that begins s, where templates may nest this many levels from here; or its first fault, the place counted from the field's
// own tag.
#[cycle(read_field_read_sequence)]
fn read_field(s: &[u8], levels: usize) -> Result<Whole, Refused>
    ensures { result ≡ read_field (template_of levels) s.now }
{
    let malformed = Refused {
        fault: Fault::Malformed,
        place: 0,
    };
    let head = read_head(s).ok_or(malformed)?;
    if s.len() - head.head_bytes < head.value_bytes {
        return Err(malformed);
    }
    let bytes = head.head_bytes + head.value_bytes;
    if s[0] & TEMPLATE_BIT != TEMPLATE_BIT {
        return Ok(Whole { fields: 1, bytes });
    }
    if levels == 0 {
        return Err(Refused {
            fault: Fault::TooDeep,
            place: 0,
        });
    }
    match read_sequence(&s[head.head_bytes..bytes], levels - 1) {
        Sequence::Fields(fields) => Ok(Whole { fields, bytes }),
        Sequence::Faulty { fault, place } => Err(Refused {
            fault,
            place: head.head_bytes + place,
        }),
    }
}

// How many fields that are not templates the fields of s are or hold, where templates may nest this many levels; or the first fault from
// the left.
#[cycle(read_field_read_sequence)]
fn read_sequence(s: &[u8], levels: usize) -> Sequence
    ensures { handed result ≡ sequence_of levels s.now }
{
    let mut count = 0;
    // An index counted by hand: a step is as long as the field that was read, and the place of a fault is counted from here; a loop over
    // what is left of the slice would need the same count beside it.
    let mut at = 0;
    while at < s.len() {
        match read_field(&s[at..], levels) {
            Ok(Whole { fields, bytes }) => {
                count += fields;
                at += bytes;
            }
            Err(Refused { fault, place }) => {
                return Sequence::Faulty {
                    fault,
                    place: at + place,
                };
            }
        }
    }
    Sequence::Fields(count)
}

// WALK over any bytes: how many fields that are not templates there are, or the first fault from the left.
pub fn walk(s: &[u8]) -> Result<usize, Refused>
    ensures { (result ≡ walk_of s.now) × (report result ≡ WALK s.now) }
{
    match read_sequence(s, MAX_DEPTH) {
        Sequence::Fields(fields) => Ok(fields),
        Sequence::Faulty { fault, place } => Err(Refused { fault, place }),
    }
}

// The number of WALK's refusal, or of none.
pub fn refusal(walked: Result<usize, Refused>) -> u8
    ensures { result ≡ (report walked).refusal }
{
    match walked {
        Ok(_) => REFUSAL_NONE,
        Err(refused) => match refused.fault {
            Fault::Malformed => REFUSAL_MALFORMED,
            Fault::TooDeep => REFUSAL_TOO_DEEP,
        },
    }
}

// How many fields WALK counted, 0 where it refused.
pub fn count(walked: Result<usize, Refused>) -> usize
    ensures { result ≡ (report walked).count }
{
    walked.unwrap_or(0)
}

// The fault offset: how many bytes come before the tag of the faulty field, 0 where WALK did not refuse.
pub fn fault_offset(walked: Result<usize, Refused>) -> usize
    ensures { result ≡ (report walked).offset }
{
    match walked {
        Ok(_) => 0,
        Err(refused) => refused.place,
    }
}
