// The rows of the table: what a message of each puts on the bus, in order, and where it stands.
ghost use Rattle.std.specs.Prelude.{◌≡◌};
ghost use Rattle.bus.specs.Command.{words_of};
ghost use Rattle.formats.specs.Row.{columns, format_of};

use bus::command;

// A row, in the order of the table.
#[derive(Clone, Copy, PartialEq, Eq)]
pub enum Row {
    // data from the controller to a terminal
    ToTerminal,
    // data from a terminal to the controller
    FromTerminal,
    // data from one terminal to another
    Between,
    // a mode command
    ModeAlone,
    // a mode command with a data word
    ModeWithWord,
    // a mode command for a data word
    ModeForWord,
}

// What a row says of one message. Word k on the bus, from 0, stands in cell k of a block.
#[derive(Clone, Copy)]
pub struct Format {
    // words that the controller gives: commands, and data behind them
    pub given: u16,
    // the data words among them
    pub behind: u16,
    // whether a status comes back
    pub status: bool,
    // data words that come back behind it
    pub reply: u16,
    // whether a last status comes back then, the receiver's
    pub last: bool,
}

fn columns(given: u16, behind: u16, status: bool, reply: u16, last: bool) -> Format
    ensures { result ≡ columns given behind status reply last }
{
    Format {
        given,
        behind,
        status,
        reply,
        last,
    }
}

impl Row {
    // The table. C is a command, S a status, D data, `/` a silence; what has `*` is not there in
    // broadcast; n is what the command says that speaks of the data.
    #[tactic(auto, unfolding(crate::specs::Row::format_of))]
    pub fn format(self, broadcast: bool, command: u16) -> Format
        ensures { result ≡ format_of self broadcast (words_of command) }
    {
        let n = command::words(command);
        let alone = !broadcast;
        match self {
            Row::ToTerminal => columns(1 + n, n, alone, 0, false), // C D1 .. Dn / S* /
            Row::FromTerminal => columns(1, 0, true, n, false), // C / S D1 .. Dn /
            Row::Between => columns(2, 0, true, n, alone), // C1 C2 / S2 D1 .. Dn / S1* /
            Row::ModeAlone => columns(1, 0, alone, 0, false), // C / S* /
            Row::ModeWithWord => columns(2, 1, alone, 0, false), // C D / S* /
            Row::ModeForWord => columns(1, 0, true, 1, false), // C / S D /
        }
    }
}
