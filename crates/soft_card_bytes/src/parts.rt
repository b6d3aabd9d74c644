// A part of a slice by its place, in bytes. Where the slice has ended there are zeros.
ghost use Rattle.std.specs.Prelude.{◌≡◌, length, drop, get_or};
ghost use Rattle.record_rules.specs.Parse.{fit};
ghost use Rattle.soft_card_bytes.specs.Places.{bytes_at};

// What is behind the place `at`.
fn behind(s: &[u8], at: usize) -> &[u8]
    ensures { result.now ≡ drop at s.now }
{
    s.get(at..).unwrap_or(&[])
}

// Byte number i, or 0 where there is none.
fn byte_at(s: &[u8], i: usize) -> u8
    ensures { result ≡ get_or s.now i 0 }
{
    s.get(i).copied().unwrap_or(0)
}

// Fills dst from s, from byte `at` of it on.
pub fn fill(dst: &mut [u8], s: &[u8], at: usize)
    ensures { dst.new ≡ fit (length dst.old) (drop at s.now) }
{
    let source = behind(s, at);
    for (i, byte) in dst.iter_mut().enumerate() {
        *byte = byte_at(source, i);
    }
}

// N bytes of s, from byte `at` on.
pub fn part<const N: usize>(s: &[u8], at: usize) -> [u8; N]
    ensures { result ≡ bytes_at at N s.now }
{
    let mut bytes = [0; N];
    fill(&mut bytes, s, at);
    bytes
}
