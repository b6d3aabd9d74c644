// Copying between two parts that a caller lends.
// Every length is in bytes.
// Proved: bytes are written in their place and nowhere else.
#![tactic(auto)]

ghost use Rattle.std.specs.Prelude.{◌≡◌, ◌+◌, ◌≤◌, length};
ghost use Rattle.octets.specs.Bytes.{overwrite};

// Writes src into buf, from byte `at` on, as octets::put does.
// Byte by byte: between two lent parts copy_from_slice calls memmove, and the library needs memcpy and memset alone (include/treadlewisp.h).
pub fn put(buf: &mut [u8], at: usize, src: &[u8])
    requires { at + length src.now ≤ length buf.old }
    ensures { buf.new ≡ overwrite buf.old at src.now }
{
    for i in 0..src.len() {
        buf[at + i] = src[i];
    }
}
