// Numbers, words and cells as text, for the programs that show what a run left. Read `text` first:
// bytes and values onto a page. `item` is a name with its value, `cells` the lines of card memory.
#![tactic(auto)]

pub mod cells;
pub mod item;
pub mod text;
