// A fault offset, and the tag that is there.
use std::io;

// The line on the faulty field: the offset of its tag in bytes, and the tag where it is among these bytes.
pub fn say_fault(rt: &impl Print, bytes: &[u8], offset: usize) -> io::Result<()> {
    match bytes.get(offset) {
        Some(tag) => println!(rt; "  field at byte {offset}: {tag:02X}"),
        None => println!(rt; "  field at byte {offset}"),
    }
}
