// The word numbers of a recovery phrase.
use std::io;

// A number is in 2 bytes, the high byte first.
const WORD_NUMBER_BYTES: usize = 2;

// The line on the words: how many there are, and their numbers.
pub fn say_words(rt: &impl Print, numbers: &[u8]) -> io::Result<()> {
    let count = numbers.len() / WORD_NUMBER_BYTES;
    print!(rt; "  {count} words:")?;
    for k in 0..count {
        print!(rt; " {}", phrase_bits::number_in(numbers, k))?;
    }
    println!(rt; "")
}
