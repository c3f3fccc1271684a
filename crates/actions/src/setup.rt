// How a terminal begins.
ghost use Rattle.std.specs.Prelude.{◌≡◌};
ghost use Rattle.std.specs.Result.{result_unwrap_or};
ghost use Rattle.refusals.specs.Number.{refused};
ghost use Rattle.actions.specs.Actions.{done, no_terminal, terminal_at_setup, setup_action};

use crate::{Terminal, refusal};
use bus::limits::ALL_STATIONS;
use card::place::Block;
use queue::Queue;
use refusals::Refusal;
use terminal::state::Core;

impl Terminal {
    // A terminal as setup leaves it.
    fn at_setup(station: u16, table: Block, flags: u16) -> Terminal
        ensures { result ≡ terminal_at_setup station table flags }
    {
        Terminal {
            core: Core::at_setup(station, table, flags),
            queue: Queue::empty(),
        }
    }

    // Setup. Where it is refused there is no terminal.
    pub fn setup(station: u16, table: u16, flags: u16) -> Result<Terminal, Refusal>
        ensures { done (refused result) (result_unwrap_or result no_terminal)
            ≡ setup_action station table flags }
    {
        refusal::setup_refusal(station, table, flags)?;
        Ok(Terminal::at_setup(station, Block(table), flags))
    }

    // No terminal: every action refuses it with 4.
    pub fn of_no_station() -> Terminal
        ensures { result ≡ no_terminal }
    {
        Terminal::at_setup(ALL_STATIONS, Block(0), 0)
    }
}
