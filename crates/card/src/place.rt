// A place in card memory. Block and cell are counted apart, so that neither is taken for the other
// nor for an address; this file alone makes a word address of them.
ghost use Rattle.std.specs.Prelude.{◌≡◌};
ghost use Rattle.card.specs.Memory.{word_address};

#[derive(Clone, Copy, PartialEq, Eq)]
pub struct Block(pub u16);

#[derive(Clone, Copy, PartialEq, Eq)]
pub struct Cell(pub u16);

pub const BLOCK_CELLS: usize = 64;

// Cells 0 to 31 hold data words.
pub const DATA_CELLS: u16 = 32;

pub const CARD_BLOCKS: u16 = 256;

pub const CARD_WORDS: usize = 16384;

// Word address = 64 × block + cell.
pub fn word_address(block: Block, cell: Cell) -> usize
    ensures { result ≡ word_address block cell }
{
    BLOCK_CELLS * usize::from(block.0) + usize::from(cell.0)
}
