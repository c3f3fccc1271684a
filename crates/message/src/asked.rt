// What a command asks of the card. A command is classified here alone: where it opens, and where an
// open message is picked up.
ghost use Rattle.std.specs.Prelude.{◌≡◌, cond, eqb};
ghost use Rattle.card.specs.Memory.{the_cell};
ghost use Rattle.message.specs.Asked.{
  legal,
  chain,
  no_block,
  no_words,
  serves,
  keeps_none,
  no_act,
  columns,
  asked_by,
  asked_of,
  asks,
};

use crate::state::OpenMessage;
use bus::kind::Kind;
use bus::{command, kind};
use card::place::Cell;

// Cells and codes stay numbers: a narrower type would ask more of callers.
#[derive(Clone, Copy)]
pub struct Asked {
    // words are skipped until silence, and message error is set at once
    pub illegal: bool,
    // it has a block, and may join the queue
    pub block: bool,
    // the table cell of its chain
    pub cell: Cell,
    // the words that it takes
    pub takes: u16,
    // the words that its reply sends from the block
    pub sends: u16,
    // a data receive: rule 6 looks at its first word
    pub receive: bool,
    // under busy its words are neither stored nor sent
    pub yields: bool,
    // its opening makes the status anew
    pub fresh: bool,
    // it sends the last command, and keeps it
    pub last: bool,
    // the mode code that acts on shut lines and inhibit, 0 for none
    pub switch: u16,
}

// ---- the table: a kind says what it has beside a block or none

// A block, by the table word of this cell.
fn with_block(cell: Cell) -> Asked
    ensures { result ≡ columns legal (chain cell) no_words serves keeps_none no_act }
{
    Asked {
        illegal: false,
        block: true,
        cell,
        takes: 0,
        sends: 0,
        receive: false,
        yields: false,
        fresh: true,
        last: false,
        switch: 0,
    }
}

// No block. An opening reads one table word all the same: that of the mode codes.
fn without_block() -> Asked
    ensures { result ≡ columns legal no_block no_words serves keeps_none no_act }
{
    Asked {
        block: false,
        ..with_block(Cell(31))
    }
}

// The chain of a mode command that sends: code 16 by cell 32, code 19 by cell 63.
fn sending_cell(code: u16) -> Cell
    ensures { result ≡ the_cell (cond (eqb code 16) 32 63) }
{
    if code == 16 { Cell(32) } else { Cell(63) }
}

fn asked_by(kind: Kind, command: u16) -> Asked
    ensures { result ≡ asked_by kind command }
{
    let subaddress = command::subaddress(command);
    let words = command::words(command);
    let code = command::mode_code(command);
    match kind {
        Kind::Receive => Asked {
            takes: words,
            receive: true,
            yields: true,
            ..with_block(Cell(subaddress))
        },
        Kind::Transmit => Asked {
            sends: words,
            yields: true,
            ..with_block(Cell(32 + subaddress))
        },
        Kind::ModeStatus => Asked {
            fresh: false,
            ..without_block()
        },
        Kind::ModeLast => Asked {
            fresh: false,
            last: true,
            ..without_block()
        },
        Kind::ModeSwitch => Asked {
            switch: code,
            ..without_block()
        },
        Kind::ModeSend => Asked {
            sends: 1,
            ..with_block(sending_cell(code))
        },
        Kind::ModeTake => Asked {
            takes: 1,
            ..with_block(Cell(31))
        },
        Kind::ModeReply => Asked {
            switch: code,
            ..with_block(Cell(31))
        },
        Kind::Illegal => Asked {
            illegal: true,
            ..without_block()
        },
    }
}

// What a command asks where it opens.
pub fn asked_of(command: u16) -> Asked
    ensures { result ≡ asked_of command }
{
    asked_by(kind::kind_of(command), command)
}

impl OpenMessage {
    // What the command of an open message asks, where the message is picked up. Said by its own
    // calls, so that the opening alone calls `asked_of` and the compiler makes that part of its
    // loop.
    pub fn asks(self) -> Asked
        ensures { result ≡ asks self }
    {
        asked_by(kind::kind_of(self.command), self.command)
    }
}
