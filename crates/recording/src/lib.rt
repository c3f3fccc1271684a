// The reader of tray recordings. A recording is a row of fields: a tag of one byte, a length of
// two, high byte first, and a value of that length. Read `tag` first, the table of tags, then
// `field`: what a field holds. `seen` is what a reader has seen, by which a field comes in order or
// not. `reading` takes one field or tells the refusal, `words` finds a word field by its marks and
// writes the words of a field to memory, and `bytes` has the numbers that bytes spell. What other
// crates use is named here without its module.
#![tactic(auto)]

mod bytes;
mod field;
mod reading;
mod seen;
mod tag;
mod words;

pub use bytes::of_bytes;
pub use field::Field;
pub use reading::{Refused, Taken, read_field};
pub use seen::Seen;
pub use words::{Found, find_word, write_words};
