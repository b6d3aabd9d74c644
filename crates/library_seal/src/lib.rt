// SEAL as the C boundary takes and gives it: the header by reference.
// Every length and count is in bytes; a refusal 0 means that there was none.
// Proved: the promise of the operation by value.
#![tactic(auto)]

ghost use Rattle.std.specs.Prelude.{◌≡◌, length};
ghost use Rattle.channel_rules.specs.Terminal.{seal_out};
ghost use Rattle.channel_terminal.specs.Did.{Did};

use channel_rules::Session;
use channel_terminal::Outcome;

// SEAL by value, of a header by value.
pub fn sealed_by(s: Session, header: [u8; 4], plain: &[u8], buf: &mut [u8]) -> Outcome
    ensures { Did (seal_out s header plain.now (length buf.old)) result buf.old buf.new }
{
    channel_terminal::seal(s, header[0], header[1], header[2], header[3], plain, buf)
}

// SEAL by value.
pub fn sealed(s: Session, header: &[u8; 4], plain: &[u8], buf: &mut [u8]) -> Outcome
    ensures { Did (seal_out s header.now plain.now (length buf.old)) result
        buf.old buf.new }
{
    let h = *header;
    sealed_by(s, h, plain, buf)
}
