// Whether a stock count is sound, and the records fed that it holds.
// The numbers count records, cards and slots; sums of them are taken in 64 bits, where none wraps.
// Proved: the answer is the definition of soundness for every count, whatever its numbers.
#![tactic(auto)]

ghost use Rattle.std.specs.Prelude.{◌≡◌, ◌<◌};
ghost use Rattle.stock_rules.specs.Counts.{of_kinds, of_tries, fed, is_count};

use stock_rules::NUMBERS;

// The most records fed that a count holds, and the most slots of an initialised card.
pub const FED_MAX: u64 = 65535;

const SLOTS_MAX: u64 = 8;

// A number in 64 bits, in which no sum of a count's numbers wraps.
fn wide(x: u32) -> u64
    ensures { (result ≡ x) × (result < 4294967296) }
{
    x as u64
}

// The records fed: those read and those refused.
pub fn fed_of(c: [u32; NUMBERS]) -> u64
    ensures { (result ≡ fed c) × (result < 8589934592) }
{
    wide(c[0]) + wide(c[1])
}

// The cards of the three kinds, which are the initialised ones.
fn of_kinds(c: [u32; NUMBERS]) -> u64
    ensures { (result ≡ of_kinds c) × (result < 12884901888) }
{
    wide(c[3]) + wide(c[4]) + wide(c[5])
}

// The cards at the four try counts.
fn of_tries(c: [u32; NUMBERS]) -> u64
    ensures { (result ≡ of_tries c) × (result < 17179869184) }
{
    wide(c[6]) + wide(c[7]) + wide(c[8]) + wide(c[9])
}

// Whether the count is sound.
pub fn sound(c: [u32; NUMBERS]) -> bool
    ensures { result ≡ is_count c }
{
    let kinds = of_kinds(c);
    let read = wide(c[0]);
    let fresh = wide(c[2]);
    let slots = wide(c[10]);
    let all_read = fresh + kinds == read;
    let all_tries = of_tries(c) == kinds;
    let few = fed_of(c) <= FED_MAX;
    let slots_fit = slots <= SLOTS_MAX * kinds;
    all_read & all_tries & few & slots_fit
}
