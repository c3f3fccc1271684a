// What holds of every recording and of every run of one. There is no code here: see specs/Lib.antt
// and proofs/Lib.antt.

#![tactic(auto)]
