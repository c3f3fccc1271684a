// One bus: a controller and terminals of different stations, joined. Definitions and proofs, no
// code.

#![tactic(auto)]
