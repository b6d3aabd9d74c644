// The message schedule of SHA-256: 64 words of 32 bits from a block of 64 bytes.
// A word has four bytes, the highest first.
// Proved: the schedule is the definition's, for every block.
#![tactic(auto)]

ghost use Rattle.std.specs.Prelude.{◌≡◌, ◌+◌, ◌*◌, ◌^◌, ◌<◌, ◌≤◌, length};
ghost use Rattle.sha_rules.specs.Hash.{word, schedule_word, schedule};

use sha_words::add;

const BLOCK_WORDS: usize = 16;

const SCHEDULE_WORDS: usize = 64;

const STEP_WORDS: usize = 8;

// The word of four bytes, the highest first.
fn join(a: u8, b: u8, c: u8, d: u8) -> u32
    ensures { result ≡ a * 2 ^ 24 + b * 2 ^ 16 + c * 2 ^ 8 + d }
{
    u32::from_be_bytes([a, b, c, d])
}

// Word t of a block.
fn block_word(m: &[u8], t: usize) -> u32
    requires m_len { length m.now ≡ 64 }
    requires t_bound { t < 16 }
    ensures { result ≡ word m.now t }
{
    let i = 4 * t;
    join(m[i], m[i + 1], m[i + 2], m[i + 3])
}

// Word t of a schedule, from the words before it. The nearest of them comes last, so that word t waits for one sum after it.
fn next_word(w: &[u32; 64], t: usize) -> u32
    requires le_t { 16 ≤ t }
    requires t_bound { t < 64 }
    ensures { result ≡ schedule_word w.now t }
{
    let first = add(w[t - 16], w[t - 7]);
    let second = add(first, sha_words::small_sigma_0(w[t - 15]));
    add(second, sha_words::small_sigma_1(w[t - 2]))
}

// The message schedule of a block. From word 16 on a step of the loop is eight words: the compiler writes them out, and what it has just made is
// still in registers.
pub fn schedule_of(m: &[u8]) -> [u32; 64]
    requires { length m.now ≡ 64 }
    ensures { result ≡ schedule m.now }
{
    let mut w = [0u32; SCHEDULE_WORDS];
    for t in 0..BLOCK_WORDS {
        w[t] = block_word(m, t);
    }
    for step in BLOCK_WORDS / STEP_WORDS..SCHEDULE_WORDS / STEP_WORDS {
        for i in 0..STEP_WORDS {
            let at = STEP_WORDS * step + i;
            let next = next_word(&w, at);
            w[at] = next;
        }
    }
    w
}
