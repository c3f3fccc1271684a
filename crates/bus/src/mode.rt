// The mode codes: what the standard's table, as document 01 takes it, says of each.
ghost use Rattle.std.specs.Prelude.{◌≡◌, ◌≤◌};
ghost use Rattle.bus.specs.Mode.{mode_of, row};

// What becomes of the one data word of a mode command.
#[derive(Clone, Copy, PartialEq, Eq)]
pub enum ModeWord {
    Without,
    Sent,
    Taken,
}

// A legal row of the table.
#[derive(Clone, Copy)]
pub struct Mode {
    // the direction bit that the command must have
    pub transmit: bool,
    pub word: ModeWord,
    // whether it may be broadcast
    pub broadcast: bool,
}

// The columns of the table: the direction, the data word, and whether the command may be broadcast.
const TRANSMIT: bool = true;

const RECEIVE: bool = false;

const WITHOUT: ModeWord = ModeWord::Without;

const SENT: ModeWord = ModeWord::Sent;

const TAKEN: ModeWord = ModeWord::Taken;

const BROADCAST: bool = true;

const ALONE: bool = false;

// A legal row.
fn row(transmit: bool, word: ModeWord, broadcast: bool) -> Option<Mode>
    ensures { result ≡ row transmit word broadcast }
{
    Some(Mode {
        transmit,
        word,
        broadcast,
    })
}

// A code that the standard keeps back: illegal.
const RESERVED: Option<Mode> = None;

// Codes 0 to 15: without a data word.
#[tactic(auto, unfolding(crate::specs::Mode::mode_of, crate::specs::Mode::mode_table))]
fn first_half(code: u16) -> Option<Mode>
    requires { code ≤ 15 }
    ensures { result ≡ mode_of code }
{
    match code {
        0 => row(TRANSMIT, WITHOUT, ALONE), // 00000 dynamic bus control
        1 => row(TRANSMIT, WITHOUT, BROADCAST), // 00001 synchronize
        2 => row(TRANSMIT, WITHOUT, ALONE), // 00010 transmit status word
        3 => row(TRANSMIT, WITHOUT, BROADCAST), // 00011 initiate self-test
        4 => row(TRANSMIT, WITHOUT, BROADCAST), // 00100 transmitter shutdown
        5 => row(TRANSMIT, WITHOUT, BROADCAST), // 00101 override transmitter shutdown
        6 => row(TRANSMIT, WITHOUT, BROADCAST), // 00110 inhibit terminal flag
        7 => row(TRANSMIT, WITHOUT, BROADCAST), // 00111 override inhibit terminal flag
        8 => row(TRANSMIT, WITHOUT, BROADCAST), // 01000 reset remote terminal
        9 => RESERVED, // 01001
        10 => RESERVED, // 01010
        11 => RESERVED, // 01011
        12 => RESERVED, // 01100
        13 => RESERVED, // 01101
        14 => RESERVED, // 01110
        15 => RESERVED, // 01111
        _ => RESERVED, // no code of this half
    }
}

// Codes 16 to 31: with one.
#[tactic(auto, unfolding(crate::specs::Mode::mode_of, crate::specs::Mode::mode_table))]
fn second_half(code: u16) -> Option<Mode>
    requires { 16 ≤ code }
    ensures { result ≡ mode_of code }
{
    match code {
        16 => row(TRANSMIT, SENT, ALONE), // 10000 transmit vector word
        17 => row(RECEIVE, TAKEN, BROADCAST), // 10001 synchronize with data word
        18 => row(TRANSMIT, SENT, ALONE), // 10010 transmit last command
        19 => row(TRANSMIT, SENT, ALONE), // 10011 transmit built-in-test word
        20 => row(RECEIVE, TAKEN, BROADCAST), // 10100 selected transmitter shutdown
        21 => row(RECEIVE, TAKEN, BROADCAST), // 10101 override selected transmitter shutdown
        22 => RESERVED, // 10110
        23 => RESERVED, // 10111
        24 => RESERVED, // 11000
        25 => RESERVED, // 11001
        26 => RESERVED, // 11010
        27 => RESERVED, // 11011
        28 => RESERVED, // 11100
        29 => RESERVED, // 11101
        30 => RESERVED, // 11110
        31 => RESERVED, // 11111
        _ => RESERVED, // no code of this half
    }
}

// The table's row of a mode code: the standard's table, line by line, each with the standard's five
// bits and name of the code. It stands in the standard's two halves, since of one match over all 32
// the compiler makes a jump by a table of addresses, which takes longer.
pub fn mode_of(code: u16) -> Option<Mode>
    ensures { result ≡ mode_of code }
{
    if code <= 15 {
        first_half(code)
    } else {
        second_half(code)
    }
}
