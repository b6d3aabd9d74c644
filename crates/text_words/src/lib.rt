// A line of text for the soft card: its words, which have spaces or tabs between them.
// Every place and length is in bytes.
// Proved: words, where they are, their number and whether a line is a comment are as defined, for any bytes.
#![tactic(auto)]

ghost use Rattle.std.specs.Prelude.{◌≡◌, ◌≤◌, ◌-◌, length, take, drop};
ghost use Rattle.text_words.specs.Words.{is_blank, letters, from_word, word_of, word_count, is_comment, line_bytes, IsEnd};

fn is_blank(c: u8) -> bool
    ensures { result ≡ is_blank c }
{
    c == b' ' || c == b'\t'
}

// A line without the blanks that it begins with.
fn from_word(s: &[u8]) -> &[u8]
    ensures { result.now ≡ from_word s.now }
{
    for (i, c) in s.iter().enumerate() {
        if !is_blank(*c) {
            return &s[i..];
        }
    }
    &[]
}

// The characters that a line begins with up to a blank, and the line after them.
fn split_word(s: &[u8]) -> (&[u8], &[u8])
    ensures word { result.0.now ≡ take (letters s.now) s.now }
    ensures rest { result.1.now ≡ drop (letters s.now) s.now }
{
    for (i, c) in s.iter().enumerate() {
        if is_blank(*c) {
            return s.split_at(i);
        }
    }
    (s, &[])
}

// A line without a carriage return at its end.
pub fn without_return(s: &[u8]) -> &[u8]
    ensures { result.now ≡ take (line_bytes s.now) s.now }
{
    match s {
        [front @ .., b'\r'] => front,
        _ => s,
    }
}

// A line from its word number k on, which is the line's end.
fn from_nth(s: &[u8], k: usize) -> &[u8]
    ensures end { IsEnd s.now result.now }
    ensures word { take (letters result.now) result.now ≡ word_of k s.now }
{
    let mut rest = from_word(s);
    for _i in 0..k {
        rest = from_word(split_word(rest).1);
    }
    rest
}

// Word number k of a line, from 0; where there are fewer, none of its bytes.
pub fn nth_word(s: &[u8], k: usize) -> &[u8]
    ensures { result.now ≡ word_of k s.now }
{
    let rest = from_nth(s, k);
    split_word(rest).0
}

// A part of a line: from byte `start` up to byte `end`, which is not in it.
#[derive(Clone, Copy)]
pub struct WordSpan {
    pub start: usize,
    pub end: usize,
}

// Where word number k of a line is, from 0; where there are fewer, a part with none of its bytes.
pub fn word(s: &[u8], k: usize) -> WordSpan
    ensures start_le_end { (result.start ≤ result.end) × (result.end ≤ length s.now) }
    ensures s_value { take (result.end - result.start) (drop result.start s.now) ≡ word_of k s.now }
{
    let start = s.len() - from_nth(s, k).len();
    let end = start + nth_word(s, k).len();
    WordSpan { start, end }
}

// How many words a line has.
pub fn count(s: &[u8]) -> usize
    ensures { result ≡ word_count s.now }
{
    let mut n = 0;
    let mut blank_before = true;
    for c in s {
        let blank = is_blank(*c);
        if blank_before && !blank {
            n += 1;
        }
        blank_before = blank;
    }
    n
}

// Whether the first word begins with '#'.
pub fn is_comment(s: &[u8]) -> bool
    ensures { result ≡ is_comment s.now }
{
    matches!(from_word(s), [b'#', ..])
}
