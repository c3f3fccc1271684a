// What comes back of a message, after the first silence: statuses, data words, silences. Read
// `order` first: what was asked. `state` is how far the answer has come, `judge` what a word or a
// silence is to it. No memory is known here and no chain: whoever listens judges the same way.
#![tactic(auto)]

pub mod judge;
pub mod order;
pub mod state;
