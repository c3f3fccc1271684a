// What the controller holds, and setup. Every state can be used.
ghost use Rattle.std.specs.Prelude.{◌≡◌};
ghost use Rattle.controller.specs.State.{at_setup};

use card::place::BLOCK_CELLS;
use exchange::order::Order;
use exchange::state::Exchange;

// The controller's own memory keeps its size, whatever a card's is: a control word has eight bits
// for the block.
pub const DESK_BLOCKS: u16 = 256;

pub const DESK_WORDS: usize = BLOCK_CELLS * DESK_BLOCKS as usize;

// What became of a message.
#[derive(Clone, Copy)]
pub struct Came {
    // the fault code, 0 for none: a number, since a state may hold any
    pub code: u16,
    // a bit besides the address was set in a status
    pub mark: bool,
}

// An open message: its row and commands as they were at the start, and how far it has come.
#[derive(Clone, Copy)]
pub struct OpenMessage {
    pub order: Order,
    // how far the answer has come; none while the words are given and the first silence is due
    pub progress: Option<Exchange>,
}

#[derive(Clone, Copy)]
pub struct Controller {
    // the control word
    pub control: u16,
    // how many messages may still be started
    pub count: u16,
    // this control word's message is to be started
    pub due: bool,
    // the last result, until the next start
    pub result: Option<Came>,
    // the open message, where one is open
    pub message: Option<OpenMessage>,
}

impl Controller {
    // Setup takes every control word and every count.
    pub fn setup(control: u16, count: u16) -> Controller
        ensures { result ≡ at_setup control count }
    {
        Controller {
            control,
            count,
            due: true,
            result: None,
            message: None,
        }
    }
}
