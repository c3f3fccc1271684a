// Document 001's table of message formats. Read `row` first: what each row puts on the bus. `code`
// is how a format code names a row.
#![tactic(auto)]

pub mod code;
pub mod row;
