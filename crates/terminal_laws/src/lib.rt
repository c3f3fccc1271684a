// What holds of every event and of every run of the terminal. There is no code here: see
// specs/Lib.antt and proofs/Lib.antt.

#![tactic(auto)]
