// What the bus brings: words and silences.
ghost use Rattle.std.specs.Prelude.{◌≡◌};
ghost use Rattle.std.specs.Result.{result_unwrap_or};
ghost use Rattle.refusals.specs.Number.{refused};
ghost use Rattle.terminal.specs.declared.state.Reply.TheVariants.{Silent};
ghost use Rattle.terminal.specs.Event.{replied};
ghost use Rattle.actions.specs.Actions.{after, word_action, silence_action, over};

use crate::Terminal;
use bus::limits::{ALL_MARKS, LAST_LINE};
use bus::word;
use refusals::Refusal;
use terminal::state::Reply;

impl Terminal {
    // A word from the bus: marks (bit 0 line, 1 command sync, 2 sound, 3 joined), value, time.
    pub fn word(&mut self, ram: &mut [u16], marks: u8, value: u16, time: u32) -> Result<(), Refusal>
        ensures { after (refused result) (replied Silent) (over self.new ram.new)
            ≡ word_action marks value time (over self.old ram.old) }
    {
        self.memory_refusal(ram.len(), marks <= ALL_MARKS)?;
        let heard = word::word_of(marks, value, time);
        self.core.word(&mut self.queue, ram, heard);
        Ok(())
    }

    // Silence on line 0, A, or 1, B: what the terminal replies.
    pub fn silence(&mut self, ram: &mut [u16], line: u8, time: u32) -> Result<Reply, Refusal>
        ensures { after (refused result) (replied (result_unwrap_or result Silent))
            (over self.new ram.new)
            ≡ silence_action line time (over self.old ram.old) }
    {
        self.memory_refusal(ram.len(), line <= LAST_LINE)?;
        Ok(self.core.silence(&mut self.queue, ram, line == 1, time))
    }
}
