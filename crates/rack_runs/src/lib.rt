// Messages over the joined bus, worked by computation. There is no code here: see proofs/Lib.antt.

#![tactic(auto)]
