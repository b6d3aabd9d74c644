// Whether the channel's stage and session are sound, and whether they are blank, as before INIT.
// Every length is in bytes.
// Proved: each answer is this part's line in the definition of soundness, whatever the part's bytes.
#![tactic(auto)]

ghost use Rattle.std.specs.Prelude.{◌≡◌};
ghost use Rattle.card.specs.Sound.{session_zero, channel_sound, channel_blank};

use card::Channel;
use sound_bytes::zero_from;

fn session_zero(k: Channel) -> bool
    ensures { result ≡ session_zero k }
{
    let enc_key = k.enc_key;
    let mac_key = k.mac_key;
    let iv = k.iv;
    zero_from(&enc_key, 0) & zero_from(&mac_key, 0) & zero_from(&iv, 0)
}

pub fn channel_sound(k: Channel) -> bool
    ensures { result ≡ channel_sound k }
{
    let stage = k.stage <= 2;
    let opened = k.stage != 0;
    let clear = session_zero(k);
    stage & (opened | clear)
}

pub fn channel_blank(k: Channel) -> bool
    ensures { result ≡ channel_blank k }
{
    let closed = k.stage == 0;
    closed & session_zero(k)
}
