// What is lent the sixty-four cells of one block alone, and so can write to no other. The cells are
// a memory of one block, number 0.
ghost use Rattle.std.specs.Prelude.{◌≡◌};
ghost use Rattle.card.specs.Memory.{the_block, with_cell, with_service};

use crate::place::{BLOCK_CELLS, Cell};

// Stores a word in a cell. A cell past the block's, or past what was lent, is not there.
#[tactic(auto, unfolding(crate::specs::Memory::with_cell))]
pub fn store(cells: &mut [u16], cell: Cell, word: u16)
    ensures { cells.new ≡ with_cell cells.old (the_block 0) cell word }
{
    let at = usize::from(cell.0);
    // by index, since of what a slice's `get_mut` lends a proof knows the length alone
    if at < BLOCK_CELLS && at < cells.len() {
        cells[at] = word;
    }
}

// Writes the service cells 58 to 61: state word, closing time by halves, ticks.
#[tactic(auto, unfolding(crate::specs::Memory::with_service))]
pub fn write_service(cells: &mut [u16], state: u16, closing: u32, ticks: u16)
    ensures { cells.new ≡ with_service cells.old (the_block 0) state closing ticks }
{
    store(cells, Cell(58), state);
    store(cells, Cell(59), (closing / 65536) as u16);
    store(cells, Cell(60), (closing % 65536) as u16);
    store(cells, Cell(61), ticks);
}
