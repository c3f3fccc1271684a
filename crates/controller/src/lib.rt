// The bus controller of document 02's K10, over its own memory of 256 blocks. Read `state` first:
// what it holds. `control` is the control word, `start` what is given to the bus, `heard` what a
// word or a silence that comes back does, `row` the data words of a reply, taken many at a time,
// `given` the words to give as a part of the memory, and `actions` the same with their refusals,
// for whoever cannot answer for what he lends and hands in.
#![tactic(auto)]

pub mod actions;
mod control;
pub mod given;
pub mod heard;
pub mod row;
pub mod start;
pub mod state;
