// Hexadecimal text in ASCII.
// Lengths are in bytes.
// Proved: hexadecimal text is read as the definition says.
#![tactic(auto)]

pub mod hex;
