// The host's write of words to card memory.
ghost use Rattle.std.specs.Prelude.{◌≡◌};
ghost use Rattle.std.proofs.lemmas.List.Edits.{sets};
ghost use Rattle.refusals.specs.Number.{refused};
ghost use Rattle.card.specs.Host.{wrote, is_write, host_write};

use crate::place::BLOCK_CELLS;
use refusals::Refusal;

// The words of a write, at most.
pub const MOST_WRITTEN: usize = 64;

// Stores the words from an address on, as far as memory goes.
#[tactic(auto, using(crate::proofs::HostLaws::copied))]
pub fn write_words(ram: &mut [u16], address: u16, words: &[u16])
    ensures { ram.new ≡ sets ram.old address words.now }
{
    let first = usize::from(address).min(ram.len());
    let count = words.len().min(ram.len() - first);
    ram[first..first + count].copy_from_slice(&words[..count]);
}

// Whether so many words from an address on are a write, on a card of so many blocks.
pub fn is_write(blocks: u16, address: u16, count: usize) -> bool
    ensures { result ≡ is_write blocks address count }
{
    1 <= count
        && count <= MOST_WRITTEN
        && usize::from(address) + count <= BLOCK_CELLS * usize::from(blocks)
}

// Writes 1 to 64 words from an address on, on a card of so many blocks.
#[tactic(auto, unfolding(crate::specs::Host::host_write))]
pub fn write(ram: &mut [u16], blocks: u16, address: u16, words: &[u16]) -> Result<(), Refusal>
    ensures { wrote (refused result) ram.new
        ≡ host_write blocks ram.old address words.now }
{
    if ram.len() != BLOCK_CELLS * usize::from(blocks) {
        return Err(Refusal::Memory);
    }
    if !is_write(blocks, address, words.len()) {
        return Err(Refusal::Value);
    }
    write_words(ram, address, words);
    Ok(())
}
