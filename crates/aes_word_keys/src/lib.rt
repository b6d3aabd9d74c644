// KEYEXPANSION of FIPS 197 in words of 32 bits: the key schedule of AES-256 for the engine from tables.
// A key has 32 bytes, a schedule 60 words; a word's lowest byte is the first of its four bytes.
// Proved: the bytes of the schedule's words are the definition's schedule, for every key.
#![tactic(auto)]

ghost use Rattle.std.specs.Prelude.{◌≡◌, ◌+◌, ◌%◌, ◌≤◌, ◌<◌, length};
ghost use Rattle.aes_rules.specs.Schedule.{rcon, changed, word_at, key_expansion};
ghost use Rattle.aes_words.specs.Words.{word_bytes, bytes_of};
ghost use Rattle.aes_tables.specs.Tables.{table2};

// A key and its schedule, in words.
const KEY_WORDS: usize = 8;

pub const SCHEDULE_WORDS: usize = 60;

// The word that begins at byte `at`.
fn word_at(b: &[u8], at: usize) -> u32
    requires { at + 4 ≤ length b.now }
    ensures { word_bytes result ≡ word_at b.now at }
{
    u32::from_le_bytes(*b[at..at + 4].as_array().unwrap())
}

// Rcon[j], for the j that AES-256 uses.
fn round_constant(j: usize) -> u32
    requires { (1 ≤ j) × (j ≤ 7) }
    ensures { word_bytes result ≡ rcon j }
{
    1u32 << (j - 1)
}

// The word x before word n, as word n takes it, for each fourth n.
fn changed_word(t2: &[u32; 256], x: u32, n: usize) -> u32
    requires t2_value { t2.now ≡ table2 }
    requires le_n { (8 ≤ n) × (n < 60) × (n % 4 ≡ 0) }
    ensures { word_bytes result ≡ changed n (word_bytes x) }
{
    if n % KEY_WORDS == 0 {
        return aes_word_columns::sub_turned(t2, x) ^ round_constant(n / KEY_WORDS);
    }
    aes_word_columns::sub_column(t2, x, x, x, x)
}

// KEYEXPANSION: from the key's 8 words to 60, four words at a time, of which the first alone goes through the S-box.
pub fn key_schedule(t2: &[u32; 256], key: &[u8]) -> [u32; 60]
    requires t2_value { t2.now ≡ table2 }
    requires key_len { length key.now ≡ 32 }
    ensures { bytes_of result ≡ key_expansion key.now }
{
    let mut w = [0u32; SCHEDULE_WORDS];
    for n in 0..KEY_WORDS {
        w[n] = word_at(key, n * 4);
    }
    for k in KEY_WORDS / 4..SCHEDULE_WORDS / 4 {
        let n = k * 4;
        let g = changed_word(t2, w[n - 1], n);
        let a = w[n - 8] ^ g;
        let b = w[n - 7] ^ a;
        let c = w[n - 6] ^ b;
        let d = w[n - 5] ^ c;
        w[n] = a;
        w[n + 1] = b;
        w[n + 2] = c;
        w[n + 3] = d;
    }
    w
}
