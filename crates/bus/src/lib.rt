// The words of MIL-STD-1553B, as document 01 takes them. Read `command` first; `mode` is the
// standard's table of mode codes, `kind` what a command asks for, `status` the answer to it, `word`
// any word as it is heard, `limits` how far the numbers go that others hand in.
#![tactic(auto)]

pub mod command;
pub mod kind;
pub mod limits;
pub mod mode;
pub mod status;
pub mod word;
