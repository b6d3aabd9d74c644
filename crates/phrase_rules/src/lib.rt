// The word numbers of a recovery phrase (BIP 39), as definitions: generating, and the reverse from the numbers back to the entropy.
// Entropy and answers are in bytes, a checksum and a number in bits, and each name says which.
// Proved: each undoes the other, the numbers are as many and as small as they should be, and the refusals come in their order.

#![tactic(auto)]
