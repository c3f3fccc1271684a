// A run of a controller's recording: what the controller starts and what comes back, field by
// field. A recording is one of document 01's manner with the controller's own setup and start. Read
// `field` first: what a field holds. `reading` takes one field or tells the refusal, `deed` is what
// a field does, `run` how far a run has come, and `runner` what it makes of a place of the
// recording, which `pieces` runs over windows. What other crates use is named here without its
// module.
#![tactic(auto)]

mod deed;
mod field;
mod print;
mod reading;
mod run;
mod runner;

pub use field::Field;
pub use reading::{Taken, read_field};
pub use run::Run;
