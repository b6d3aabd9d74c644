// Words of 32 bits as four bytes, the first byte the lowest, and blocks of 16 bytes as four words.
// Proved: a word, and a block of words, has the bytes that it was made of, and gives them back.
#![tactic(auto)]

ghost use Rattle.std.specs.Prelude.{◌≡◌, [], ◌∷◌, length};
ghost use Rattle.aes_words.specs.Words.{word_bytes, bytes_of};

// The word of four bytes.
pub fn word_of(a: u8, b: u8, c: u8, d: u8) -> u32
    ensures { word_bytes result ≡ a ∷ b ∷ c ∷ d ∷ [] }
{
    u32::from_le_bytes([a, b, c, d])
}

// The four words of the block that a slice of 16 bytes holds.
pub fn slice_words(s: &[u8]) -> [u32; 4]
    requires { length s.now ≡ 16 }
    ensures { bytes_of result ≡ s.now }
{
    [
        word_of(s[0], s[1], s[2], s[3]),
        word_of(s[4], s[5], s[6], s[7]),
        word_of(s[8], s[9], s[10], s[11]),
        word_of(s[12], s[13], s[14], s[15]),
    ]
}

// The four words of a block.
pub fn block_words(s: [u8; 16]) -> [u32; 4]
    ensures { bytes_of result ≡ s }
{
    slice_words(&s)
}

// The four bytes of a word.
fn word_bytes(x: u32) -> [u8; 4]
    ensures { result ≡ word_bytes x }
{
    x.to_le_bytes()
}

// The bytes of four words.
pub fn block_bytes(s: [u32; 4]) -> [u8; 16]
    ensures { result ≡ bytes_of s }
{
    let words = s.map(word_bytes);
    *words.as_flattened().as_array().unwrap()
}
