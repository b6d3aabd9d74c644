// The operations of SHA-256 on words of 32 bits: addition, rotation, and the six functions of FIPS 180-4.
// A word is four bytes, the highest first.
// Proved: each gives what the definition says, for every word.
#![tactic(auto)]

ghost use Rattle.std.specs.Prelude.{◌≡◌, ◌<◌};
ghost use Rattle.sha_rules.specs.Words.{◌⊞◌, rotr, Ch, Maj, Σ₀, Σ₁, σ₀, σ₁};

// The sum of two words, modulo 2^32.
pub fn add(x: u32, y: u32) -> u32
    ensures { result ≡ x ⊞ y }
{
    x.wrapping_add(y)
}

// A word rotated to the right by n bits.
fn rotate(x: u32, n: u32) -> u32
    requires n_nonzero { 0 < n }
    requires n_bound { n < 32 }
    ensures { result ≡ rotr n x }
{
    x.rotate_right(n)
}

// Where a bit of x is set, the bit of y, and elsewhere that of z.
pub fn ch(x: u32, y: u32, z: u32) -> u32
    ensures { result ≡ Ch x y z }
{
    (x & y) ^ (!x & z)
}

// Each bit as most of the three words have it.
pub fn maj(x: u32, y: u32, z: u32) -> u32
    ensures { result ≡ Maj x y z }
{
    (x & y) ^ (x & z) ^ (y & z)
}

// The two functions of the working variables, and the two of the message schedule.
pub fn big_sigma_0(x: u32) -> u32
    ensures { result ≡ Σ₀ x }
{
    rotate(x, 2) ^ rotate(x, 13) ^ rotate(x, 22)
}

pub fn big_sigma_1(x: u32) -> u32
    ensures { result ≡ Σ₁ x }
{
    rotate(x, 6) ^ rotate(x, 11) ^ rotate(x, 25)
}

pub fn small_sigma_0(x: u32) -> u32
    ensures { result ≡ σ₀ x }
{
    rotate(x, 7) ^ rotate(x, 18) ^ (x >> 3)
}

pub fn small_sigma_1(x: u32) -> u32
    ensures { result ≡ σ₁ x }
{
    rotate(x, 17) ^ rotate(x, 19) ^ (x >> 10)
}
