// Rules that the proofs of every crate cite. There is no code here: see proofs/Lib.antt.

#![tactic(auto)]
