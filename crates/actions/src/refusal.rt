// What refuses, told before anything is done.
ghost use Rattle.std.specs.Prelude.{◌≡◌, eqb};
ghost use Rattle.refusals.specs.Number.{number_of, refused};
ghost use Rattle.card.specs.Memory.{card_words};
ghost use Rattle.actions.specs.Actions.{fit_terminal};
ghost use Rattle.actions.specs.AsCoded.Refusal.{setup_refusal, memory_refusal, alone_refusal};

use crate::Terminal;
use bus::limits::{ALL_FLAGS, LAST_STATION};
use card::place::{CARD_BLOCKS, CARD_WORDS};
use refusals::Refusal;

// What setup refuses: no station, no block of the card, spare bits in the flags.
pub(crate) fn setup_refusal(station: u16, table: u16, flags: u16) -> Result<(), Refusal>
    ensures { refused result ≡ setup_refusal station table flags }
{
    if station > LAST_STATION {
        return Err(Refusal::Station);
    }
    if table >= CARD_BLOCKS {
        return Err(Refusal::TableBlock);
    }
    if flags > ALL_FLAGS {
        return Err(Refusal::Value);
    }
    Ok(())
}

impl Terminal {
    // What an action over memory refuses: memory that is not the card's, a state that is not fit,
    // input out of order.
    pub(crate) fn memory_refusal(&self, words: usize, ordered: bool) -> Result<(), Refusal>
        ensures { refused result
            ≡ memory_refusal (eqb words card_words) (fit_terminal self.now) ordered }
    {
        if words != CARD_WORDS {
            return Err(Refusal::Memory);
        }
        self.refusal(ordered, Refusal::Value)
    }

    // What an action on the terminal alone refuses: a state that is not fit, then input out of
    // order.
    pub(crate) fn refusal(&self, ordered: bool, disorder: Refusal) -> Result<(), Refusal>
        ensures { refused result
            ≡ alone_refusal (fit_terminal self.now) ordered (number_of disorder) }
    {
        if !self.is_fit() {
            return Err(Refusal::State);
        }
        if !ordered {
            return Err(disorder);
        }
        Ok(())
    }
}
