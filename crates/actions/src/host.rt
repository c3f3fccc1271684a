// What the host does.
ghost use Rattle.std.specs.Prelude.{◌≡◌};
ghost use Rattle.std.specs.Result.{result_unwrap_or};
ghost use Rattle.refusals.specs.Number.{refused};
ghost use Rattle.terminal.specs.declared.state.Reply.TheVariants.{Silent};
ghost use Rattle.terminal.specs.Event.{replied, queue_word};
ghost use Rattle.actions.specs.Actions.{
  after,
  alone,
  host_write_action,
  read_queue_action,
  move_table_action,
  set_flags_action,
  over,
};

use crate::Terminal;
use bus::limits::ALL_FLAGS;
use card::host;
use card::place::{Block, CARD_BLOCKS};
use refusals::Refusal;

impl Terminal {
    // The host writes 1 to 64 words from an address on.
    pub fn host_write(&self, ram: &mut [u16], address: u16, words: &[u16]) -> Result<(), Refusal>
        ensures { after (refused result) (replied Silent) (over self.now ram.new)
            ≡ host_write_action address words.now (over self.now ram.old) }
    {
        self.memory_refusal(ram.len(), true)?;
        host::write(ram, CARD_BLOCKS, address, words)
    }

    // The oldest block leaves the queue.
    pub fn read_queue(&mut self) -> Result<u16, Refusal>
        ensures { after (refused result) (queue_word (result_unwrap_or result 0))
            (alone self.new)
            ≡ read_queue_action (alone self.old) }
    {
        if !self.is_fit() {
            return Err(Refusal::State);
        }
        Ok(self.queue.read())
    }

    // The host sets the table block.
    pub fn move_table(&mut self, table: u16) -> Result<(), Refusal>
        ensures { after (refused result) (replied Silent) (alone self.new)
            ≡ move_table_action table (alone self.old) }
    {
        self.refusal(table < CARD_BLOCKS, Refusal::TableBlock)?;
        self.core.move_table(Block(table));
        Ok(())
    }

    // The host writes the flags.
    pub fn set_flags(&mut self, flags: u16) -> Result<(), Refusal>
        ensures { after (refused result) (replied Silent) (alone self.new)
            ≡ set_flags_action flags (alone self.old) }
    {
        self.refusal(flags <= ALL_FLAGS, Refusal::Value)?;
        self.core.set_flags(flags);
        Ok(())
    }
}
