// What a message asks: its row of the table, and its commands.
ghost use Rattle.std.specs.Prelude.{◌≡◌};
ghost use Rattle.exchange.specs.Order.{asking_in, format_for};

use bus::command;
use formats::row::{Format, Row};

#[derive(Clone, Copy)]
pub struct Order {
    pub row: Row,
    pub broadcast: bool,
    // words 0 and 1 on the bus; the second is a command in a transfer between two terminals alone
    pub first: u16,
    pub second: u16,
}

impl Order {
    // The command that asks for the reply: between two terminals the second, the transmitter's.
    #[tactic(auto, unfolding(crate::specs::Order::asking_in))]
    pub(crate) fn asking(self) -> u16
        ensures { result ≡ asking_in self }
    {
        match self.row {
            Row::Between => self.second,
            _ => self.first,
        }
    }

    #[tactic(auto, unfolding(crate::specs::Order::format_for))]
    pub fn format(self) -> Format
        ensures { result ≡ format_for self }
    {
        self.row.format(self.broadcast, self.asking())
    }
}
