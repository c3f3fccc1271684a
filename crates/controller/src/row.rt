// The data words of a reply, which come one after the other: where those that are wanted go, and
// the controller behind some of them. So they can be stored many at a time.
ghost use Rattle.std.specs.Prelude.{◌≡◌, ◌≤◌};
ghost use Rattle.formats.specs.Row.{last_cell, highest_cell};
ghost use Rattle.controller.specs.Row.{wanted_at, words_wanted, with_taken};

use crate::control;
use crate::state::{Controller, OpenMessage};
use card::place::Block;
use exchange::state::{Exchange, Stage};
use formats::row::Format;

// The data words that the open message waits for.
#[derive(Clone, Copy)]
pub struct Wanted {
    pub block: Block,
    // the next one's cell, and the cell behind the last
    pub cell: u16,
    pub end: u16,
    // line B
    pub line: bool,
    // how many are in
    pub taken: u16,
}

// Behind a status: the words of its reply that are not in.
fn wanted_at(control: u16, format: Format, exchange: Exchange) -> Option<Wanted>
    requires { last_cell format ≤ highest_cell }
    ensures { result ≡ wanted_at exchange.stage control format exchange.taken }
{
    match exchange.stage {
        Stage::Reply if exchange.taken < format.reply => Some(Wanted {
            block: control::block(control),
            cell: format.given + 1 + exchange.taken,
            end: format.given + 1 + format.reply,
            line: control::line(control),
            taken: exchange.taken,
        }),
        _ => None,
    }
}

impl Controller {
    #[tactic(auto, unfolding(crate::specs::Row::words_wanted))]
    pub fn words_wanted(&self) -> Option<Wanted>
        ensures { result ≡ words_wanted self.now }
    {
        let message = self.message?;
        wanted_at(self.control, message.order.format(), message.progress?)
    }

    // So many data words of the reply are in, where one is open.
    #[tactic(auto, unfolding(crate::specs::Row::with_taken, crate::specs::State::with_message))]
    pub fn set_taken(&mut self, taken: u16)
        ensures { self.new ≡ with_taken taken self.old }
    {
        if let Some(
            OpenMessage {
                progress: Some(exchange),
                ..
            },
        ) = &mut self.message
        {
            exchange.taken = taken;
        }
    }
}
