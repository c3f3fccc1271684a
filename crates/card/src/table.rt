// A table word, in the table or as a link in cell 63: bit 15 busy, bit 14 queue wanted, bits 9 to 0
// block. Its other bits are kept and mean nothing.
ghost use Rattle.std.specs.Prelude.{◌≡◌};
ghost use Rattle.card.specs.TableWord.{is_busy, wants_queue, block_of};

use crate::place::{Block, CARD_BLOCKS};

pub fn is_busy(word: u16) -> bool
    ensures { result ≡ is_busy word }
{
    word / 32768 % 2 == 1
}

pub fn wants_queue(word: u16) -> bool
    ensures { result ≡ wants_queue word }
{
    word / 16384 % 2 == 1
}

// The block that the word names, taken modulo 256.
pub fn block_of(word: u16) -> Block
    ensures { result ≡ block_of word }
{
    Block(word % 1024 % CARD_BLOCKS)
}
