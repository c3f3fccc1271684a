// The marked cases and theorems at work. There is no code here: see proofs/Lib.antt.

#![tactic(auto)]
