// The hash computation of SHA-256 on one block: the message schedule, the 64 rounds, and the sum with the hash value before.
// A block has 64 bytes; a hash value has 8 words of 32 bits, a schedule 64.
// Proved: the result is the definition's, for every hash value and block.
#![tactic(auto)]

ghost use Rattle.std.specs.Prelude.{◌≡◌, List, ℕ, ◌+◌, ◌≤◌, length};
ghost use Rattle.sha_rules.specs.Constants.{K};
ghost use Rattle.sha_rules.specs.Hash.{rounds, compress};

use sha_rounds::round_of;

const ROUNDS: usize = 64;

const STEP_ROUNDS: usize = 8;

// The hash value after a block, from the one before it. The table of constants is handed in. A step of the loop is eight rounds: the compiler
// writes them out, and as each working variable is then where it was before, no word is moved.
pub fn compress_block(k: &[u32; 64], h: [u32; 8], m: &[u8]) -> [u32; 8]
    requires k_value { k.now ≡ K }
    requires m_len { length m.now ≡ 64 }
    ensures { result ≡ compress h m.now }
{
    let w = sha_schedule::schedule_of(m);
    let mut s = h;
    for step in 0..ROUNDS / STEP_ROUNDS {
        for i in 0..STEP_ROUNDS {
            let at = STEP_ROUNDS * step + i;
            let next = round_of(k[at], w[at], s);
            s = next;
        }
    }
    sha_rounds::sums(s, h)
}
