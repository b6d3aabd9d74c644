// The claims: what is demanded of the card, of the terminal's end and of the stored record, each as a statement over the definitions and the
// contracts of the other crates. No code is here. Every length, count and room is in bytes.
// Proved: refusals; ciphers, templates, round trips, agreement and verification, the rows to settle, and that the rules shut out the wrong
// engines; the two runs.

#![tactic(auto)]
