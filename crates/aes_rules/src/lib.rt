// AES-256 as FIPS 197 defines it: the definitions, and the laws that others cite. No code is here, so that one engine or several
// can be proved against the same definitions.
// A key has 32 bytes, a block 16 bytes, a key schedule 240 bytes.
// Proved: under every key, the cipher and its inverse take blocks to blocks and undo each other.

#![tactic(auto)]
