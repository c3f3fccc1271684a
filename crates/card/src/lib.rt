// Card memory: 16,384 words in 256 blocks of 64 cells. Read `place` first: it says where a cell
// lies. `block` is lent one block's cells alone and `memory` does the lending; `table`, `state` and
// `time` make and read what stands in the cells; `host` is the way in, `part` shows words of a
// block, and `sent` those to send.
#![tactic(auto)]

pub mod block;
pub mod host;
pub mod memory;
pub mod part;
pub mod place;
pub mod sent;
pub mod state;
pub mod table;
pub mod time;
