// The words to send: the part of the RAM that starts at their block's cell 0, 32 at the most.
// `part` is the one function of every such part; these two name the number, as their
// definitions do.
ghost use Rattle.std.specs.Prelude.{◌≡◌, length};
ghost use Rattle.card.specs.Sent.{sent_refusal, sent_part};
ghost use Rattle.refusals.specs.Number.{refusal_in};

use crate::part;
use crate::place::{Block, DATA_CELLS};
use refusals::Refusal;

// The part's refusal on a card of so many blocks, none where it is shown.
pub fn refusal(ram: &[u16], blocks: u16, block: Block, count: u16) -> Option<Refusal>
    ensures { refusal_in result
        ≡ sent_refusal blocks (length ram.now) block count }
{
    part::refusal(ram, blocks, DATA_CELLS, block, count)
}

// The part itself, empty where it is refused.
pub fn part(ram: &[u16], blocks: u16, block: Block, count: u16) -> &[u16]
    ensures { result.now ≡ sent_part blocks ram.now block count }
{
    part::shown(ram, blocks, DATA_CELLS, block, count)
}
