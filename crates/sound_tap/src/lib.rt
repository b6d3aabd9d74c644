// Whether bytes are what SET NDEF takes, whether the tap record is sound, and whether it is blank, as before INIT.
// Every length is in bytes.
// Proved: each answer is this part's line in the definition of soundness, whatever the part's bytes.
#![tactic(auto)]

ghost use Rattle.std.specs.Prelude.{◌≡◌, ◌+◌, ◌*◌};
ghost use Rattle.card.specs.Sound.{is_ndef, tap_sound, tap_blank};

use card::{TAP_MAX_BYTES, Tap, wide};
use sound_bytes::zero_from;

// The length at the front of a tap record, the high byte first.
const LENGTH_BYTES: usize = 2;

// The number that two bytes are, the high one first.
fn number_of(high: u8, low: u8) -> usize
    ensures { result ≡ high * 256 + low }
{
    wide(high) * 256 + wide(low)
}

// Whether SET NDEF takes these bytes (RULES 6.20): the first two are the number of the others.
pub fn is_ndef(data: &[u8]) -> bool
    ensures { result ≡ is_ndef «data».now }
{
    if data.len() < LENGTH_BYTES {
        return false;
    }
    let told = number_of(data[0], data[1]);
    let others = data.len() - LENGTH_BYTES;
    let most = data.len() <= TAP_MAX_BYTES;
    let right = told == others;
    most & right
}

// Whether the tap record is sound: none, or what SET NDEF takes, and zero past its end.
pub fn tap_sound(t: Tap) -> bool
    ensures { result ≡ tap_sound t }
{
    let bytes = t.bytes;
    let len = wide(t.len);
    if TAP_MAX_BYTES < len {
        return false;
    }
    let clear = zero_from(&bytes, len);
    let none = t.len == 0;
    let ndef = is_ndef(&bytes[..len]);
    clear & (none | ndef)
}

pub fn tap_blank(t: Tap) -> bool
    ensures { result ≡ tap_blank t }
{
    let bytes = t.bytes;
    let empty = t.len == 0;
    let clear = zero_from(&bytes, 0);
    empty & clear
}
