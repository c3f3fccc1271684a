// A recording that comes in pieces, whatever its fields are. Read `runner` first: what a program
// brings that runs a recording. `window` is a call over a window, which takes every whole field of
// it; `stop` says why a call stops, with the last line, and `rest` moves what is left of the window
// to its front. `specs/Course.antt` has what a run makes of its fields. What other crates use is
// named here without its module.
#![tactic(auto)]

mod rest;
mod runner;
mod stop;
mod window;

pub use rest::keep_rest;
pub use runner::{Runner, Went};
pub use stop::{Stop, stop_at};
pub use window::{Passed, run_window};
