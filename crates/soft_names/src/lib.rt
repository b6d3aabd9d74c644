// What the soft card says: status words, refusals and supplies by name, fault offsets, and word numbers.
// Every length and offset is in bytes; a length is written with its unit.
// Proved: every function is safe and ends.
#![tactic(auto)]

mod fault;
mod refusal_names;
mod status;
mod supply_names;
mod words;

pub use fault::say_fault;
pub use refusal_names::{Refusal, Refused};
pub use status::StatusWord;
pub use supply_names::Supply;
pub use words::say_words;
