// What a word or a silence is to the answer: the decision alone.
ghost use Rattle.std.specs.Prelude.{◌≡◌, false, ◌+◌, ◌<◌};
ghost use Rattle.exchange.specs.Judge.{
  at_first,
  is_marked,
  status_heard,
  data_heard,
  on_word,
  on_silence,
};

use crate::order::Order;
use crate::state::{Exchange, Stage};
use bus::command;
use bus::word::Word;

// A fault code is a number, since a state of the controller may hold any.
#[derive(Clone, Copy)]
pub enum WordAct {
    // the message ends with a fault code
    Fault(u16),
    // the word is taken: its number on the bus, and how far the answer has come then
    Take(u16, Exchange),
}

#[derive(Clone, Copy)]
pub enum SilenceAct {
    // the message ends with a fault code
    Fault(u16),
    // the answer goes on
    GoOn(Exchange),
    // the message ends sound
    End,
}

// Any of bits 10 to 0 of a status sets the mark.
fn is_marked(status: u16) -> bool
    ensures { result ≡ is_marked status }
{
    status % 2048 != 0
}

impl Exchange {
    // Nothing has come back yet.
    pub fn at_first() -> Exchange
        ensures { result ≡ at_first }
    {
        Exchange {
            stage: Stage::Awaiting,
            taken: 0,
            mark: false,
        }
    }

    // A status of this station is due, and then this stage begins.
    #[tactic(auto, unfolding(crate::specs::Judge::status_heard))]
    fn status_heard(self, cell: u16, station: u16, next: Stage, word: Word) -> WordAct
        ensures { result ≡ status_heard cell station next self word }
    {
        if !word.sync {
            return WordAct::Fault(6);
        }
        if command::address(word.value) != station {
            return WordAct::Fault(5);
        }
        WordAct::Take(
            cell,
            Exchange {
                stage: next,
                mark: self.mark || is_marked(word.value),
                ..self
            },
        )
    }

    // Data words are due, from this cell on, or all are in.
    #[tactic(auto, unfolding(crate::specs::Judge::data_heard))]
    fn data_heard(self, complete: bool, first: u16, word: Word) -> WordAct
        requires { complete ≡ false → first + self.taken < 65535 }
        ensures { result ≡ data_heard complete first self word }
    {
        if !word.joined {
            return WordAct::Fault(3);
        }
        if complete {
            return WordAct::Fault(4);
        }
        if word.sync {
            return WordAct::Fault(6);
        }
        WordAct::Take(
            first + self.taken,
            Exchange {
                taken: self.taken + 1,
                ..self
            },
        )
    }

    // A word on the message's line.
    #[tactic(auto, unfolding(crate::specs::Judge::on_word, crate::specs::Judge::word_heard))]
    pub fn on_word(self, order: Order, word: Word) -> WordAct
        ensures { result ≡ on_word order self word }
    {
        if !word.sound {
            return WordAct::Fault(1);
        }
        let format = order.format();
        let reply = format.given + 1;
        match self.stage {
            Stage::Awaiting => {
                let station = command::address(order.asking());
                self.status_heard(format.given, station, Stage::Reply, word)
            }
            Stage::Reply => self.data_heard(format.reply <= self.taken, reply, word),
            Stage::AwaitingLast => {
                let station = command::address(order.first);
                self.status_heard(reply + format.reply, station, Stage::Ended, word)
            }
            Stage::Ended => self.data_heard(true, reply, word),
        }
    }

    // A silence on the message's line.
    #[tactic(auto, unfolding(crate::specs::Judge::silence_heard))]
    pub fn on_silence(self, order: Order) -> SilenceAct
        ensures { result ≡ on_silence order self }
    {
        let format = order.format();
        match self.stage {
            Stage::Awaiting | Stage::AwaitingLast => SilenceAct::Fault(2),
            Stage::Reply if self.taken < format.reply => SilenceAct::Fault(3),
            Stage::Reply if format.last => SilenceAct::GoOn(Exchange {
                stage: Stage::AwaitingLast,
                ..self
            }),
            Stage::Reply | Stage::Ended => SilenceAct::End,
        }
    }
}
