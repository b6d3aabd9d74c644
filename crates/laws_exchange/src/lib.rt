// Terminal and card together: a command that SEAL makes, the answer that ANSWER gives to it, and what UNSEAL makes of that. No code is
// here, only theorems over the definitions of the three. Every length and room is in bytes.
// Proved: UNSEAL gives the response data and the status word of the command's definition, and both ends hold the same session again.

#![tactic(auto)]
