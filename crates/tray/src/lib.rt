// A run of a tray recording. The program lends the card memory, a window of the recording and a
// buffer for the lines. Read `run` first: how far a run has come. `field` does what a field tells,
// `print` has its line, and `runner` is what the run makes of a place of the recording, data words
// many at a time, which `pieces` runs over windows. What other crates use is named here without its
// module.
#![tactic(auto)]

mod field;
mod print;
mod run;
mod runner;

pub use run::Tray;
