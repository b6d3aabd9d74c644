// The finite field of AES: laws of its definitions, and no code.

#![tactic(auto)]
