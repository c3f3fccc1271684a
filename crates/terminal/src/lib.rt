// The remote terminal of document 01. Read `state` first: what it holds. `opening` and `closing` do
// what the rules of an open message decide, `machine` puts them together, and `row` goes on behind
// data words that were stored many at a time. What a caller uses, refusals included, is the crate
// `actions`.
#![tactic(auto)]

mod closing;
mod machine;
mod opening;
pub mod row;
pub mod state;
