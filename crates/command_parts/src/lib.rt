// What the commands share: the verdict of their checks, the parts of data and supplies, a card with one part replaced, and the reply.
// Every length, count and place is in bytes.
// Proved: each gives exactly what its contract names, for every card, all data and every supply; a check is the rulebook's.
#![tactic(auto)]

ghost use Rattle.std.specs.Prelude.{◌≡◌, true, false, IfOk, IfErr, [], ◌++◌, ◌+◌, ◌≤◌, length};
ghost use Rattle.template_rules.specs.Writing.{Wrote};
ghost use Rattle.card.specs.State.{with_pins, with_pairing, with_keys, with_channel, with_tap};
ghost use Rattle.rules.specs.Words.{success, tries_left, succeeds, fails};
ghost use Rattle.rules.specs.Code.{replied_of};
ghost use Rattle.rules.specs.Supplies.{supply, no_supply, says_yes, part};
ghost use Rattle.command_parts.specs.Replies.{said};

use card::{Card, Channel, Keys, Pairing, Pins, Tap};
use rules::{Replied, SUCCESS, Supply, TRIES_LEFT, Verdict};

// The flag byte of a supply that says yes.
pub const FLAG_YES: u8 = 1;

// The first byte of a point in uncompressed form.
pub const POINT_FORM: u8 = 0x04;

// A check: it goes on where what must hold does, and ends with its status word where it does not.
pub fn must(holds: bool, otherwise: u16) -> Result<(), u16>
    ensures ok { IfOk result (λ _. holds ≡ true) }
    ensures err { IfErr result (λ w. (holds ≡ false) × (w ≡ otherwise)) }
{
    if holds { Ok(()) } else { Err(otherwise) }
}

// No supply is read.
pub fn reads_none() -> Verdict
    ensures { result ≡ Ok no_supply }
{
    reads(0, 0, false)
}

// A supply of this kind and length is read; `flagged` says whether its first byte is a flag.
pub fn reads(kind: u8, bytes: usize, flagged: bool) -> Verdict
    ensures { result ≡ Ok (supply kind bytes flagged) }
{
    let read = Supply {
        kind,
        bytes,
        flagged,
    };
    Ok(read)
}

// ---- parts of data and supplies
// Whether a supply's flag says yes.
pub fn says_yes(supply: &[u8]) -> bool
    requires { 1 ≤ length supply.now }
    ensures { result ≡ says_yes supply.now }
{
    supply[0] == FLAG_YES
}

// N bytes of a part, from byte `at` on.
pub fn part<const N: usize>(s: &[u8], at: usize) -> [u8; N]
    requires { at + N ≤ length s.now }
    ensures { result ≡ part at N s.now }
{
    let mut bytes = [0; N];
    bytes.copy_from_slice(&s[at..at + N]);
    bytes
}

// Writes one slice and another after it from the buffer's start, and gives their length.
pub fn put_both(out: &mut [u8], first: &[u8], second: &[u8]) -> usize
    requires { length first.now + length second.now ≤ length out.old }
    ensures { Wrote (first.now ++ second.now) 0 result out.old out.new }
{
    octets::put(out, 0, first);
    octets::put(out, first.len(), second);
    first.len() + second.len()
}

// ---- the card with one part in the place of its own
pub fn with_pins(mut card: Card, pins: Pins) -> Card
    ensures { result ≡ with_pins card pins }
{
    card.pins = pins;
    card
}

pub fn with_pairing(mut card: Card, pairing: Pairing) -> Card
    ensures { result ≡ with_pairing card pairing }
{
    card.pairing = pairing;
    card
}

pub fn with_keys(mut card: Card, keys: Keys) -> Card
    ensures { result ≡ with_keys card keys }
{
    card.keys = keys;
    card
}

pub fn with_channel(mut card: Card, channel: Channel) -> Card
    ensures { result ≡ with_channel card channel }
{
    card.channel = channel;
    card
}

pub fn with_tap(mut card: Card, tap: Tap) -> Card
    ensures { result ≡ with_tap card tap }
{
    card.tap = tap;
    card
}

// ---- the reply
// The status word for so many tries left.
pub fn tries_left(n: u8) -> u16
    ensures { result ≡ tries_left n }
{
    TRIES_LEFT + n as u16
}

// Success with so many bytes of response data, leaving this card.
pub fn replied(card: Card, count: usize) -> Replied
    ensures { result ≡ said success count card }
{
    Replied {
        status: SUCCESS,
        count,
        card,
    }
}

// Success without response data.
pub fn done(card: Card) -> Replied
    ensures { result ≡ replied_of (succeeds card []) }
{
    replied(card, 0)
}

// Failure with this status word.
pub fn failed(card: Card, status: u16) -> Replied
    ensures { result ≡ replied_of (fails card status) }
{
    Replied {
        status,
        count: 0,
        card,
    }
}
