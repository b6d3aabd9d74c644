// Laws of the commands' rules (crate `rules`): no code is here, only theorems over the definitions.
// specs/Lawful.antt says what the engine's theorems need of a command; proofs/Table.antt shows it of every command that an instruction lists, and
// proofs/Arrival.antt takes the order of checks apart, steps 1 to 5, once for all. Every length is in bytes.

#![tactic(auto)]
