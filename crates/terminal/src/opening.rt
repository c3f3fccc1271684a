// Opening: what a command makes of the terminal.
ghost use Rattle.std.specs.Prelude.{◌≡◌, cond};
ghost use Rattle.message.specs.declared.state.Stage.TheVariants.{Data, Skipping};
ghost use Rattle.card.specs.Memory.{the_block};
ghost use Rattle.card.specs.TableWord.{block_of};
ghost use Rattle.terminal.specs.Opening.{busy_at, opened_message, opened_status, opened_at};

use crate::state::Core;
use bus::status::Status;
use bus::word::Word;
use card::place::Block;
use card::{memory, table};
use message::asked;
use message::asked::Asked;
use message::state::{OpenMessage, Stage};

// Busy: flag 1 or, with a block, the table word's bit 15.
fn busy_at(asked: Asked, flags: u16, table_word: u16) -> bool
    ensures { result ≡ busy_at asked flags table_word }
{
    (flags / 2 % 2 == 1) | (asked.block & table::is_busy(table_word))
}

// A message without a block has number 0 in its place.
fn block_at(asked: Asked, table_word: u16) -> Block
    ensures { result ≡ cond asked.block (block_of table_word) (the_block 0) }
{
    if asked.block {
        table::block_of(table_word)
    } else {
        Block(0)
    }
}

// Illegal commands are skipped.
fn stage_at(illegal: bool) -> Stage
    ensures { result ≡ cond illegal Skipping Data }
{
    if illegal {
        Stage::Skipping
    } else {
        Stage::Data
    }
}

impl Core {
    // The message that a word opens, with what the opening fixes.
    fn opened_message(&self, asked: Asked, table_word: u16, word: Word) -> OpenMessage
        ensures { result ≡ opened_message asked table_word word self.now }
    {
        OpenMessage {
            command: word.value,
            line: word.line,
            block: block_at(asked, table_word),
            table: self.table,
            moved: false,
            busy: busy_at(asked, self.flags, table_word),
            queued: asked.block & table::wants_queue(table_word),
            opened: word.time,
            taken: 0,
            second: None,
            stage: stage_at(asked.illegal),
        }
    }

    // A legal code 2 or 18 keeps the remembered status.
    fn opened_status(&self, asked: Asked, table_word: u16, word: Word) -> u16
        ensures { result ≡ opened_status asked table_word word self.now }
    {
        if !asked.fresh {
            return self.status;
        }
        let busy = busy_at(asked, self.flags, table_word);
        Status::caught(
            self.station,
            asked.illegal,
            word.value,
            self.flags,
            busy,
            self.inhibit,
        )
        .word()
    }

    // The word opens a message: its chain's table word is read. A legal code 18 keeps the last
    // command.
    pub fn open(&mut self, ram: &[u16], word: Word)
        ensures { self.new ≡ opened_at word self.old ram.now }
    {
        let asked = asked::asked_of(word.value);
        let table_word = memory::read_cell(ram, self.table, asked.cell);
        let message = self.opened_message(asked, table_word, word);
        self.status = self.opened_status(asked, table_word, word);
        self.last = if asked.last { self.last } else { word.value };
        self.message = Some(message);
    }
}
