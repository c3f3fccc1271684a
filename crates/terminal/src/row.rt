// A row of data words that the open message has stored, one after the other: the core behind it.
ghost use Rattle.std.specs.Prelude.{◌≡◌};
ghost use Rattle.terminal.specs.Row.{with_taken};

use crate::state::Core;
use message::state::{OpenMessage, Stage};

impl Core {
    // The open message goes on behind its words, with so many taken.
    pub fn after_row(&mut self, message: OpenMessage, taken: u16)
        ensures { self.new ≡ with_taken taken message self.old }
    {
        self.message = Some(message.further(Stage::Data, message.second, taken));
    }
}
