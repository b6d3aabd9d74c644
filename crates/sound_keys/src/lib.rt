// Whether the key and both paths are sound, and whether they are blank, as before INIT.
// Every length is in bytes.
// Proved: each answer is this part's line in the definition of soundness, whatever the part's bytes.
#![tactic(auto)]

ghost use Rattle.std.specs.Prelude.{◌≡◌};
ghost use Rattle.card.specs.Sound.{path_sound, keys_sound, path_blank, keys_blank};

use card::{Keys, Path, wide};
use sound_bytes::zero_from;

// The most bytes of a path: its room.
const PATH_MOST_BYTES: u8 = card::PATH_MAX_BYTES as u8;

const COMPONENT_BYTES: u8 = 4;

fn path_sound(p: Path) -> bool
    ensures { result ≡ path_sound p }
{
    let bytes = p.bytes;
    let most = p.len <= PATH_MOST_BYTES;
    let whole = p.len % COMPONENT_BYTES == 0;
    let clear = zero_from(&bytes, wide(p.len));
    most & whole & clear
}

pub fn keys_sound(k: Keys) -> bool
    ensures { result ≡ keys_sound k }
{
    let uid = k.uid;
    let current = k.current;
    let pinless = k.pinless;
    let kind = k.kind <= 2;
    let paths = path_sound(current) & path_sound(pinless);
    let empty = current.len == 0;
    let extended = k.kind == 2;
    let some = k.kind != 0;
    let clear = zero_from(&uid, 0);
    kind & paths & (empty | extended) & (some | clear)
}

fn path_blank(p: Path) -> bool
    ensures { result ≡ path_blank p }
{
    let bytes = p.bytes;
    let empty = p.len == 0;
    let clear = zero_from(&bytes, 0);
    empty & clear
}

pub fn keys_blank(k: Keys) -> bool
    ensures { result ≡ keys_blank k }
{
    let uid = k.uid;
    let current = k.current;
    let pinless = k.pinless;
    let none = k.kind == 0;
    let clear = zero_from(&uid, 0);
    none & clear & path_blank(current) & path_blank(pinless)
}
