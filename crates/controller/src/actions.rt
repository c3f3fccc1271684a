// The actions with their refusals, told before anything is done: 1 memory that is not the
// controller's, then 8 input out of order, or 14 a format code that the table lacks. A refusal
// leaves the controller and the memory as they were.
ghost use Rattle.std.specs.Prelude.{◌≡◌};
ghost use Rattle.refusals.specs.Number.{refused, outcome_in};
ghost use Rattle.controller.specs.State.{desk};
ghost use Rattle.controller.specs.Start.{started_as};
ghost use Rattle.controller.specs.Actions.{start_action, after, word_action, silence_action};

use crate::start::Given;
use crate::state::{Came, Controller, DESK_WORDS};
use bus::limits::{ALL_MARKS, LAST_LINE};
use bus::word;
use refusals::Refusal;

impl Controller {
    // A start: what is to be given to the bus.
    #[tactic(auto, unfolding(crate::specs::Actions::start_action))]
    pub fn start(&mut self, ram: &[u16]) -> Result<Option<Given>, Refusal>
        ensures { started_as (refused result) (outcome_in result)
            (desk self.new ram.now)
            ≡ start_action (desk self.old ram.now) }
    {
        if ram.len() != DESK_WORDS {
            return Err(Refusal::Memory);
        }
        self.begin(ram)
    }

    // A word from the bus: marks (bit 0 line, 1 command sync, 2 sound, 3 joined) and value. The
    // result where it ends the message.
    #[tactic(auto, unfolding(crate::specs::Actions::word_action))]
    pub fn word(&mut self, ram: &mut [u16], marks: u8, value: u16) -> Result<Option<Came>, Refusal>
        ensures { after (refused result) (outcome_in result)
            (desk self.new ram.new)
            ≡ word_action marks value (desk self.old ram.old) }
    {
        if ram.len() != DESK_WORDS {
            return Err(Refusal::Memory);
        }
        if marks > ALL_MARKS {
            return Err(Refusal::Value);
        }
        Ok(self.hear_word(ram, word::word_of(marks, value, 0)))
    }

    // Silence on line 0, A, or 1, B.
    #[tactic(auto, unfolding(crate::specs::Actions::silence_action))]
    pub fn silence(&mut self, ram: &[u16], line: u8) -> Result<Option<Came>, Refusal>
        ensures { after (refused result) (outcome_in result)
            (desk self.new ram.now)
            ≡ silence_action line (desk self.old ram.now) }
    {
        if ram.len() != DESK_WORDS {
            return Err(Refusal::Memory);
        }
        if line > LAST_LINE {
            return Err(Refusal::Value);
        }
        Ok(self.hear_silence(ram, line == 1))
    }
}
