// The lines of the card's nonzero cells.
ghost use Rattle.shown.specs.Text.{Fits};
ghost use Rattle.shown.specs.Cells.{cell_text, cell_lines};

use crate::text::{Hex, Shown, put_text};
use lines::Page;

// Address and word of a cell, if it is not zero.
fn put_cell(page: &mut Page, address: u16, word: u16)
    ensures { Fits page.old (cell_text address word) page.new }
{
    if word == 0 {
        return;
    }
    Hex(address).put(page);
    put_text(page, b" ");
    Hex(word).put(page);
    put_text(page, b"\n");
}

// Every nonzero cell, rising; an address has 16 bits.
pub fn put_cells(page: &mut Page, ram: &[u16])
    ensures { Fits page.old (cell_lines 0 ram.now) page.new }
{
    for (address, word) in ram.iter().enumerate() {
        put_cell(page, (address % 65536) as u16, *word);
    }
}
