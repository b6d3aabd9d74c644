// The bytes of a word, or of a buffer that an operation writes to.
ghost use Rattle.std.specs.Prelude.{◌≡◌, take, replicate, length};
ghost use Rattle.soft_state.specs.Items.{items};

use soft_word_bytes::VALUE_MAX_BYTES;

// At most VALUE_MAX_BYTES bytes, in the value itself: those of `space` up to `len`. No Vec, for which there may be no memory, and no
// ArrayVec, which is not Copy.
#[derive(Clone, Copy)]
pub struct Value {
    pub space: [u8; VALUE_MAX_BYTES],
    pub len: usize,
}

impl Value {
    // So many zeros, as far as there is place for them.
    pub(crate) fn zeros(len: usize) -> Self
        ensures zeros { items result ≡ take len (replicate VALUE_MAX_BYTES 0) }
        ensures long { result.len ≡ len }
    {
        Value {
            space: [0; VALUE_MAX_BYTES],
            len,
        }
    }

    pub fn as_slice(&self) -> &[u8]
        ensures { result.now ≡ items self.now }
    {
        self.space.get(..self.len).unwrap_or(&self.space)
    }

    pub fn len(&self) -> usize
        ensures { result ≡ length (items self.now) }
    {
        self.as_slice().len()
    }

    // Only the first `len` bytes stay, where there are more.
    pub fn truncate(&mut self, len: usize)
        ensures { items self.new ≡ take len (items self.old) }
    {
        if len < self.len {
            self.len = len;
        }
    }
}
