// Whether PIN and PUK, their tries and the verification are sound, and whether they are blank, as before INIT.
// Every length is in bytes.
// Proved: each answer is this part's line in the definition of soundness, whatever the part's bytes.
#![tactic(auto)]

ghost use Rattle.std.specs.Prelude.{◌≡◌};
ghost use Rattle.card.specs.Sound.{pins_sound, pins_blank};

use card::{Card, Pins};
use sound_bytes::{digits, zero_from};

pub fn pins_sound(p: Pins) -> bool
    ensures { result ≡ pins_sound p }
{
    let pin = p.pin;
    let puk = p.puk;
    let flag = p.verified <= 1;
    let pin_digits = digits(&pin);
    let puk_digits = digits(&puk);
    let pin_tries = p.pin_tries <= Card::PIN_TRIES;
    let puk_tries = p.puk_tries <= Card::PUK_TRIES;
    let unverified = p.verified == 0;
    let full = p.pin_tries == Card::PIN_TRIES;
    flag & (pin_digits & puk_digits) & (pin_tries & puk_tries) & (unverified | full)
}

pub fn pins_blank(p: Pins) -> bool
    ensures { result ≡ pins_blank p }
{
    let pin = p.pin;
    let puk = p.puk;
    let a = zero_from(&pin, 0);
    let b = zero_from(&puk, 0);
    let pin_tries = p.pin_tries == 0;
    let puk_tries = p.puk_tries == 0;
    let unverified = p.verified == 0;
    (a & b) & (pin_tries & puk_tries) & unverified
}
