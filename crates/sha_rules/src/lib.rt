// SHA-256 as definitions alone, in the order and by the names of FIPS 180-4: words and functions, constants, padding, the computation.
// A message is a list of bytes, a word a number below 2^32; one length counts bits, the one that the padding holds.
// Proved: the constants are the standard's rule, and the padded message has whole blocks of 64 bytes.

#![tactic(auto)]
