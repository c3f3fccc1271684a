// An open message. Read `state` first: what it carries. `asked` says what each kind of command
// asks of the card, `judge` what a word or a silence is to do to it, `wants` how many words it
// stores. Which ones are fit is defined here and judged in the crate `actions`.
#![tactic(auto)]

pub mod asked;
pub mod judge;
pub mod state;
mod wants;
