// An open message.
ghost use Rattle.std.specs.Prelude.{◌≡◌};
ghost use Rattle.message.specs.Message.{further, moved_message};

use card::place::Block;

// How far an open message has come.
#[derive(Clone, Copy)]
pub enum Stage {
    // data words are taken, or silence is due
    Data,
    // a second command was taken: silence is due
    SecondCommand,
    // the answering status of the other station is due
    AwaitingStatus,
    // an illegal command: words are skipped until silence
    Skipping,
}

// An open message: what its opening caught and fixed, and how far it has come.
#[derive(Clone, Copy)]
pub struct OpenMessage {
    pub command: u16,
    // line B
    pub line: bool,
    pub block: Block,
    // the table block at the opening
    pub table: Block,
    // the host has set the table block since
    pub moved: bool,
    pub busy: bool,
    // the block is to join the queue
    pub queued: bool,
    // the stamp of the opening command
    pub opened: u32,
    // words taken
    pub taken: u16,
    // the second command of a transfer between two stations, kept until the end
    pub second: Option<u16>,
    pub stage: Stage,
}

impl OpenMessage {
    // The same message, further on.
    pub fn further(self, stage: Stage, second: Option<u16>, taken: u16) -> OpenMessage
        ensures { result ≡ further stage second taken self }
    {
        OpenMessage {
            stage,
            second,
            taken,
            ..self
        }
    }
}

// The host has set the table block: an open message remembers it.
pub fn moved_message(message: Option<OpenMessage>) -> Option<OpenMessage>
    ensures { result ≡ moved_message message }
{
    message.map(|held| OpenMessage {
        moved: true,
        ..held
    })
}
