// The guess allowance: what each call of a history did, and how many wrong PINs and PUKs count since each count restarted. No code is here:
// the calls are those of ASK, ANSWER and RESET by the definitions that their functions are proved against.
// Every length is in bytes.
// Proved: from an INIT with 9000 on, the wrong PINs and the PIN tries left are 3 together, the wrong PUKs and the PUK tries left are 5; and
// SIGN off a PIN-less path and EXPORT of a private key give 9000 only if the latest comparison came out right and the channel has not left
// stage 2 since.

#![tactic(auto)]
