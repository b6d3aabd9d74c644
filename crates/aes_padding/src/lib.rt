// Padding to whole blocks of 16 bytes, ISO/IEC 9797-1 method 2: 80, then 00 up to the end of the block.
// Every length is in bytes.
// Proved: unpadding gives back what was padded, and takes nothing else.
#![tactic(auto)]

ghost use Rattle.std.specs.Prelude.{◌≡◌, ◌≤◌, length, take};
ghost use Rattle.octets.specs.Bytes.{written};
ghost use Rattle.aes_padding.specs.Padding.{padded_bytes, pad, unpad, answer, LastNonzero};

use octets::BLOCK_BYTES;

// The byte that padding begins with.
pub const PADDING_MARK: u8 = 0x80;

// The length of data_bytes bytes of data when they are padded: the next multiple of 16 that is larger.
pub fn padded_bytes(data_bytes: usize) -> usize
    requires { data_bytes ≤ 65536 }
    ensures { result ≡ padded_bytes data_bytes }
{
    data_bytes + (BLOCK_BYTES - data_bytes % BLOCK_BYTES)
}

// Pads the first data_bytes bytes of buf in their place; the answer is the padded length in bytes. After it buf stays as it is.
pub fn pad_in_place(buf: &mut [u8], data_bytes: usize) -> usize
    requires { padded_bytes data_bytes ≤ length buf.old }
    ensures value { result ≡ padded_bytes data_bytes }
    ensures buf_after { buf.new ≡ written (pad (take data_bytes buf.old)) buf.old }
{
    let end = data_bytes + (BLOCK_BYTES - data_bytes % BLOCK_BYTES);
    buf[data_bytes] = PADDING_MARK;
    buf[data_bytes + 1..end].fill(0);
    end
}

// The place of the last byte that is not zero.
fn last_nonzero(s: &[u8]) -> Option<usize>
    ensures { LastNonzero s.now result }
{
    s.iter().rposition(|b| *b != 0)
}

// How many bytes of buf are data, the rest being padding. It looks from the end, at no more than the last block.
pub fn find_data(buf: &[u8]) -> Option<usize>
    ensures { result ≡ answer (unpad buf.now) }
{
    let end = buf.len();
    if end % BLOCK_BYTES != 0 {
        return None;
    }
    let start = end.checked_sub(BLOCK_BYTES)?;
    let mark = start + last_nonzero(&buf[start..])?;
    if buf[mark] == PADDING_MARK {
        Some(mark)
    } else {
        None
    }
}
