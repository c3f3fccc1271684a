// The words to give: the part of the memory that starts at their block's cell 0, a command and 32
// words at the most. `part` is the one function of every such part; these two name the numbers.
ghost use Rattle.std.specs.Prelude.{◌≡◌, length};
ghost use Rattle.refusals.specs.Number.{refusal_in};
ghost use Rattle.controller.specs.Given.{given_refusal, given_part};

use crate::state::DESK_BLOCKS;
use card::part;
use card::place::Block;
use refusals::Refusal;

const MOST_GIVEN: u16 = 33;

// The part's refusal, none where it is shown.
pub fn refusal(ram: &[u16], block: Block, count: u16) -> Option<Refusal>
    ensures { refusal_in result ≡ given_refusal (length ram.now) block count }
{
    part::refusal(ram, DESK_BLOCKS, MOST_GIVEN, block, count)
}

// The part itself, empty where it is refused.
pub fn part(ram: &[u16], block: Block, count: u16) -> &[u16]
    ensures { result.now ≡ given_part ram.now block count }
{
    part::shown(ram, DESK_BLOCKS, MOST_GIVEN, block, count)
}
