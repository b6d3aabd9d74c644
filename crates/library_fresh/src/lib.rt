// FRESH and soundness as the C boundary takes and gives them: arrays by reference, and a number for yes or no.
// Every length is in bytes.
// Proved: the promises of the operations by value.
#![tactic(auto)]

ghost use Rattle.std.specs.Prelude.{◌≡◌, cond};
ghost use Rattle.card.specs.State.{fresh_of};
ghost use Rattle.card.specs.Sound.{is_sound};

use card::Card;

// FRESH by value.
pub fn made(uid: &[u8; 16], public_key: &[u8; 65]) -> Card
    ensures { result ≡ fresh_of uid.now public_key.now }
{
    Card::fresh(*uid, *public_key)
}

// Soundness as a number: 1 if the card is sound, else 0.
pub fn sound_number(card: Card) -> u8
    ensures { result ≡ cond (is_sound card) 1 0 }
{
    if sound::sound(card) { 1 } else { 0 }
}
