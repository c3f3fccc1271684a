// The format codes: bits 2 to 0 are the row, bit 3 is X, broadcast, which four rows alone may have.
ghost use Rattle.std.specs.Prelude.{◌≡◌};
ghost use Rattle.formats.specs.Code.{format, coded_by};

use crate::row::Row;

// What a code stands for.
#[derive(Clone, Copy)]
pub struct Coded {
    pub row: Row,
    pub broadcast: bool,
}

// The columns of the table: to one station, or to all.
const ALONE: bool = false;

const BROADCAST: bool = true;

// A code of the table.
fn format(row: Row, broadcast: bool) -> Option<Coded>
    ensures { result ≡ format row broadcast }
{
    Some(Coded { row, broadcast })
}

// A code that the table lacks.
const LACKING: Option<Coded> = None;

// The table's row of a code, code by code.
#[tactic(auto, unfolding(crate::specs::Code::coded_by, crate::specs::Code::code_table))]
pub fn coded_by(code: u16) -> Option<Coded>
    ensures { result ≡ coded_by code }
{
    match code {
        0 => format(Row::ToTerminal, ALONE), // 0000
        1 => format(Row::FromTerminal, ALONE), // 0001
        2 => format(Row::Between, ALONE), // 0010
        3 => format(Row::ModeAlone, ALONE), // 0011
        4 => format(Row::ModeWithWord, ALONE), // 0100
        5 => format(Row::ModeForWord, ALONE), // 0101
        6 => LACKING, // 0110
        7 => LACKING, // 0111
        8 => format(Row::ToTerminal, BROADCAST), // 1000
        9 => LACKING, // 1001
        10 => format(Row::Between, BROADCAST), // 1010
        11 => format(Row::ModeAlone, BROADCAST), // 1011
        12 => format(Row::ModeWithWord, BROADCAST), // 1100
        _ => LACKING, // 1101, 1110, 1111
    }
}
