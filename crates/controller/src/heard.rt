// Words and silences that come back, and the end of a message: decided first, then done. These are
// total: a memory of another length is refused by the actions.
ghost use Rattle.std.specs.Prelude.{◌≡◌, Some};
ghost use Rattle.controller.specs.State.{desk, open_back};
ghost use Rattle.controller.specs.Heard.{
  heard_as,
  ended,
  mark_of,
  word_in,
  word_step,
  silence_in,
  silence_step,
};

use crate::control;
use crate::state::{Came, Controller, OpenMessage};
use bus::word::Word;
use card::memory;
use card::place::Cell;
use exchange::judge::{SilenceAct, WordAct};
use exchange::state::Exchange;

impl OpenMessage {
    // The mark so far.
    fn mark(&self) -> bool
        ensures { result ≡ mark_of self.now.progress }
    {
        self.progress.is_some_and(|exchange| exchange.mark)
    }

    // The message goes on, answered so far.
    fn answered(self, exchange: Exchange) -> OpenMessage
        ensures { Some result ≡ open_back self.order exchange }
    {
        OpenMessage {
            progress: Some(exchange),
            ..self
        }
    }

    // What a word is to do. Before the first silence any word is out of place.
    fn on_word(&self, word: Word) -> WordAct
        ensures { result ≡ word_in self.now.progress self.now.order word }
    {
        match self.progress {
            Some(exchange) => exchange.on_word(self.order, word),
            None if !word.sound => WordAct::Fault(1),
            None => WordAct::Fault(7),
        }
    }

    // What a silence is to do. The first one ends the message where no status comes back.
    fn on_silence(&self) -> SilenceAct
        ensures { result ≡ silence_in self.now.progress self.now.order }
    {
        match self.progress {
            Some(exchange) => exchange.on_silence(self.order),
            None if self.order.format().status => SilenceAct::GoOn(Exchange::at_first()),
            None => SilenceAct::End,
        }
    }
}

impl Controller {
    // The end of the message: the chain goes on after code 0, the mark clear and bit 4 set.
    #[tactic(auto, unfolding(crate::specs::Heard::ended))]
    fn end(&mut self, ram: &[u16], code: u16, mark: bool) -> Option<Came>
        ensures { heard_as result (desk self.new ram.now)
            ≡ ended code mark (desk self.old ram.now) }
    {
        self.due = code == 0 && !mark && control::goes_on(self.control);
        if self.due {
            self.control = memory::read_cell(ram, control::block(self.control), Cell(63));
        }
        self.result = Some(Came { code, mark });
        self.message = None;
        self.result
    }

    // A word, over a memory of any length. Only words of the message's line have an effect. One
    // that is taken is stored, in the cell of its number on the bus; one that brings a fault is
    // not.
    #[tactic(auto, unfolding(crate::specs::Heard::word_step, crate::specs::State::with_message))]
    pub fn hear_word(&mut self, ram: &mut [u16], word: Word) -> Option<Came>
        ensures { heard_as result (desk self.new ram.new)
            ≡ word_step word (desk self.old ram.old) }
    {
        let message = self.message?;
        if word.line != control::line(self.control) {
            return None;
        }
        match message.on_word(word) {
            WordAct::Fault(code) => self.end(ram, code, message.mark()),
            WordAct::Take(cell, exchange) => {
                memory::write_cell(ram, control::block(self.control), Cell(cell), word.value);
                self.message = Some(message.answered(exchange));
                None
            }
        }
    }

    // A silence, over a memory of any length. Only those of the message's line have an effect.
    #[tactic(auto, unfolding(crate::specs::Heard::silence_step, crate::specs::State::with_message))]
    pub fn hear_silence(&mut self, ram: &[u16], line: bool) -> Option<Came>
        ensures { heard_as result (desk self.new ram.now)
            ≡ silence_step line (desk self.old ram.now) }
    {
        let message = self.message?;
        if line != control::line(self.control) {
            return None;
        }
        match message.on_silence() {
            SilenceAct::Fault(code) => self.end(ram, code, message.mark()),
            SilenceAct::GoOn(exchange) => {
                self.message = Some(message.answered(exchange));
                None
            }
            SilenceAct::End => self.end(ram, 0, message.mark()),
        }
    }
}
