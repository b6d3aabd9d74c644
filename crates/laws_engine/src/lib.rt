// Laws of the order of checks, of ASK and of ANSWER (crate `rules`): no code is here, only theorems over the definitions.
// Proved: from a sound card every next card is sound and keeps its shape; ASK and ANSWER agree on the supply; when each refusal is given;
// the room that they ask for is enough; ANSWER keeps the tap record, or SET NDEF sets it. Every length and room is in bytes.

#![tactic(auto)]
