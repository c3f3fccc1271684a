// What the terminal holds, what the host sets of it, and setup.
ghost use Rattle.std.specs.Prelude.{◌≡◌};
ghost use Rattle.message.specs.Message.{moved_message};
ghost use Rattle.terminal.specs.State.{with_table, with_flags, with_message, core_at_setup};

use card::place::Block;
use message::state;
use message::state::OpenMessage;

// The lines that are shut.
#[derive(Clone, Copy)]
pub struct Shut {
    pub a: bool,
    pub b: bool,
}

// All but the queue.
#[derive(Clone, Copy)]
pub struct Core {
    pub station: u16,
    pub table: Block,
    pub flags: u16,
    // the remembered status
    pub status: u16,
    // the last command
    pub last: u16,
    pub shut: Shut,
    pub inhibit: bool,
    // the open message
    pub message: Option<OpenMessage>,
}

// What the terminal puts on the bus. Words to send are named by their block and count, and shown as
// a part of the RAM; the last command is a number.
#[derive(Clone, Copy)]
pub enum Reply {
    Silent,
    Status(u16),
    Words {
        status: u16,
        block: Block,
        count: u16,
    },
    Last {
        status: u16,
        command: u16,
    },
}

// What an event brings: a reply on the bus, or the word of a queue read.
#[derive(Clone, Copy)]
pub enum Answer {
    Replied(Reply),
    QueueWord(u16),
}

impl Core {
    // Remembered status = station × 2,048; all else zero, nothing open. A station has five bits.
    pub fn at_setup(station: u16, table: Block, flags: u16) -> Core
        ensures { result ≡ core_at_setup station table flags }
    {
        Core {
            station,
            table,
            flags,
            status: station % 32 * 2048,
            last: 0,
            shut: Shut { a: false, b: false },
            inhibit: false,
            message: None,
        }
    }

    // The host sets the table block.
    pub fn move_table(&mut self, table: Block)
        ensures { self.new
            ≡ with_table table (with_message (moved_message self.old.message) self.old) }
    {
        self.table = table;
        self.message = state::moved_message(self.message);
    }

    // The host writes the flags.
    pub fn set_flags(&mut self, flags: u16)
        ensures { self.new ≡ with_flags flags self.old }
    {
        self.flags = flags;
    }
}
