// Demand 3 (RULES 11.3): two runs of one list of calls, from cards that agree in all but PIN and PUK. No code is here: the calls are those of ASK,
// ANSWER and RESET by the definitions that their functions are proved against.
// Every length and count is in bytes.
// Proved: both runs show the same at every call and end with cards that agree, if each comparison that both make comes out alike; and what a run
// shows at a call is what the contracts say, all of it but PIN and PUK.

#![tactic(auto)]
