// Words and silences over what a run holds: decided first, then done. These are total: fitness is
// judged by the actions, and a run that starts fit stays so.
ghost use Rattle.std.specs.Prelude.{◌≡◌, Some};
ghost use Rattle.message.specs.Message.{further};
ghost use Rattle.terminal.specs.State.{card, with_message};
ghost use Rattle.terminal.specs.Event.{shown, seen, replied};
ghost use Rattle.terminal.specs.WordStep.{word_done, word_step};
ghost use Rattle.terminal.specs.SilenceStep.{silence_done, silence_step};

use crate::state::{Core, Reply};
use bus::word::Word;
use card::memory;
use card::place::Cell;
use message::asked::Asked;
use message::judge;
use message::judge::{SilenceAct, WordAct};
use message::state::{OpenMessage, Stage};
use queue::Queue;

impl Core {
    // The open message goes on.
    fn go_on(&mut self, message: OpenMessage, stage: Stage, second: Option<u16>, taken: u16)
        ensures { self.new ≡ with_message (Some (further stage second taken message)) self.old }
    {
        self.message = Some(message.further(stage, second, taken));
    }

    // What a word does to the open message, and what it opens behind that.
    fn word_done(
        &mut self,
        act: WordAct,
        queue: &mut Queue,
        ram: &mut [u16],
        asked: Asked,
        message: OpenMessage,
        word: Word,
    )
        ensures { card self.new queue.new ram.new
            ≡ (word_done act asked message word (card self.old queue.old ram.old)).card }
    {
        match act {
            WordAct::Ignore => {}
            WordAct::Store(taken) => {
                memory::write_cell(ram, message.block, Cell(message.taken), word.value);
                self.go_on(message, Stage::Data, message.second, taken);
            }
            WordAct::Check(taken) => self.go_on(message, Stage::Data, message.second, taken),
            WordAct::TakeSecond(value) => {
                self.go_on(message, Stage::SecondCommand, Some(value), message.taken);
            }
            WordAct::TakeStatus => {
                self.go_on(message, Stage::Data, message.second, message.taken);
            }
            WordAct::Fault(code) => {
                self.close_by_fault(code, queue, ram, asked, word.time, message);
            }
            WordAct::Supersede => {
                self.close_by_fault(7, queue, ram, asked, word.time, message);
                self.open(ram, word);
            }
            WordAct::Drop => self.open(ram, word),
        }
    }

    // A word from the bus. With nothing open, any own command opens.
    pub fn word(&mut self, queue: &mut Queue, ram: &mut [u16], word: Word)
        ensures { card self.new queue.new ram.new
            ≡ (word_step word (card self.old queue.old ram.old)).card }
    {
        let Some(message) = self.message else {
            if judge::is_own(self.station, self.flags, word) {
                self.open(ram, word);
            }
            return;
        };
        let asked = message.asks();
        let act = judge::on_word(self.station, self.flags, asked, message, word);
        self.word_done(act, queue, ram, asked, message, word);
    }

    // What a silence does to the open message. Only a sound end is replied to.
    fn silence_done(
        &mut self,
        act: SilenceAct,
        queue: &mut Queue,
        ram: &mut [u16],
        asked: Asked,
        message: OpenMessage,
        time: u32,
    ) -> Reply
        ensures { shown (card self.new queue.new ram.new) (replied result)
            ≡ seen (silence_done act asked message time (card self.old queue.old ram.old)) }
    {
        match act {
            SilenceAct::Ignore => Reply::Silent,
            SilenceAct::AwaitStatus => {
                self.go_on(
                    message,
                    Stage::AwaitingStatus,
                    message.second,
                    message.taken,
                );
                Reply::Silent
            }
            SilenceAct::Fault(code) => {
                self.close_by_fault(code, queue, ram, asked, time, message);
                Reply::Silent
            }
            SilenceAct::End => {
                let reply = self.reply(asked, message);
                self.close_at_end(queue, ram, asked, time, message);
                reply
            }
        }
    }

    // Silence on a line.
    pub fn silence(&mut self, queue: &mut Queue, ram: &mut [u16], line: bool, time: u32) -> Reply
        ensures { shown (card self.new queue.new ram.new) (replied result)
            ≡ seen (silence_step line time (card self.old queue.old ram.old)) }
    {
        let Some(message) = self.message else {
            return Reply::Silent;
        };
        let asked = message.asks();
        let act = judge::on_silence(asked, message, line);
        self.silence_done(act, queue, ram, asked, message, time)
    }
}
