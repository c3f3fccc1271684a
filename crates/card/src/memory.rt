// Cells of the whole card. To write one, the part of the RAM from 64 × block is lent on, as far as
// the RAM has it: a cell past the RAM's end is read as 0, and a store to it changes nothing.
ghost use Rattle.std.specs.Prelude.{◌≡◌};
ghost use Rattle.card.specs.Memory.{cell_at, with_cell, with_service, with_link};
ghost use Rattle.card.specs.Lent.{LentCells};

use crate::place::{BLOCK_CELLS, Block, Cell};
use crate::{block, place};
use std::ops::Range;

#[tactic(auto, unfolding(crate::specs::Memory::cell_at))]
pub fn read_cell(ram: &[u16], block: Block, cell: Cell) -> u16
    ensures { result ≡ cell_at ram.now block cell }
{
    let address = place::word_address(block, cell);
    // by a test: with `get(..).copied().unwrap_or(0)`, and `min` for the test in `cells_of`, a run
    // of mode commands took 3 % longer
    if address < ram.len() { ram[address] } else { 0 }
}

// Where a block's cells lie, as far as the RAM has them.
fn cells_of(ram: &[u16], block: Block) -> Range<usize>
    ensures { LentCells ram.now block result }
{
    let start = place::word_address(block, Cell(0));
    if ram.len() <= start {
        return ram.len()..ram.len();
    }
    start..(start + BLOCK_CELLS).min(ram.len())
}

#[tactic(auto, using(crate::proofs::LentBlock::lent_cell))]
pub fn write_cell(ram: &mut [u16], block: Block, cell: Cell, word: u16)
    ensures { ram.new ≡ with_cell ram.old block cell word }
{
    let lent = cells_of(ram, block);
    block::store(&mut ram[lent.start..lent.end], cell, word);
}

#[tactic(auto, using(crate::proofs::LentBlock::lent_service))]
pub fn write_service(ram: &mut [u16], block: Block, state: u16, closing: u32, ticks: u16)
    ensures { ram.new ≡ with_service ram.old block state closing ticks }
{
    let lent = cells_of(ram, block);
    block::write_service(&mut ram[lent.start..lent.end], state, closing, ticks);
}

// Reads a block's cell 63 into a cell of the table: the chain goes on.
#[tactic(auto, unfolding(crate::specs::Memory::with_link))]
pub fn write_link(ram: &mut [u16], block: Block, table: Block, cell: Cell)
    ensures { ram.new ≡ with_link ram.old block table cell }
{
    let link = read_cell(ram, block, Cell(63));
    write_cell(ram, table, cell, link);
}
