// A part of the RAM that is shown: words of a block from its cell 0 on.
ghost use Rattle.std.specs.Prelude.{◌≡◌, length};
ghost use Rattle.refusals.specs.Number.{refusal_in};
ghost use Rattle.card.specs.Part.{part_refusal, shown_part};

use crate::place;
use crate::place::{BLOCK_CELLS, Block, Cell};
use refusals::Refusal;

// The part's refusal where the RAM has so many blocks and a part so many words at the most, none
// where it is shown.
#[tactic(auto, unfolding(crate::specs::Part::part_refusal))]
pub fn refusal(ram: &[u16], blocks: u16, most: u16, block: Block, count: u16) -> Option<Refusal>
    ensures { refusal_in result
        ≡ part_refusal blocks most (length ram.now) block count }
{
    if ram.len() != BLOCK_CELLS * usize::from(blocks) {
        Some(Refusal::Memory)
    } else if block.0 < blocks && 1 <= count && count <= most && usize::from(count) <= BLOCK_CELLS {
        None
    } else {
        Some(Refusal::Value)
    }
}

// The part itself, empty where it is refused.
pub fn shown(ram: &[u16], blocks: u16, most: u16, block: Block, count: u16) -> &[u16]
    ensures { result.now ≡ shown_part blocks most ram.now block count }
{
    if refusal(ram, blocks, most, block, count).is_some() {
        return &[];
    }
    let start = place::word_address(block, Cell(0));
    &ram[start..start + usize::from(count)]
}
