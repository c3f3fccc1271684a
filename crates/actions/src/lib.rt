// The actions of the library on a terminal, each with what refuses it; what is refused is as it
// was.
// `heard` has what the bus brings, `host` what the host does, `setup` how a terminal begins;
// `refusal` tells what refuses, `fitness` which states are fit.
#![tactic(auto)]

use queue::Queue;
use terminal::state::Core;

mod fitness;
mod heard;
mod host;
mod refusal;
mod setup;

#[derive(Clone, Copy)]
pub struct Terminal {
    pub core: Core,
    pub queue: Queue,
}
