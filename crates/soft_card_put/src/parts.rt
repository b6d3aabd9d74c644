// Bytes put into a slice by their place, in bytes, as far as the slice goes.
ghost use Rattle.std.specs.Prelude.{◌≡◌, length, take};
ghost use Rattle.octets.specs.Bytes.{overwrite};

// Puts src into dst, from byte `at` on, as far as dst goes.
pub fn place(dst: &mut [u8], at: usize, src: &[u8])
    ensures { dst.new ≡ take (length dst.old) (overwrite dst.old at src.now) }
{
    let from = at.min(dst.len());
    let n = src.len().min(dst.len() - from);
    octets::put(dst, from, &src[..n]);
}
