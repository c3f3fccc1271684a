// A call of one of the library's actions, and what comes of it. The words of a row: action, two
// arguments, words of RAM, all 1234; then the terminal (`given`). Behind an equals sign comes what
// is left, up to the next remark: a byte, the refusal, 0 for none; station, table block, flags,
// queue start, then as a recording leaves it; and every place of the queue and every word of the
// RAM that is not as it was given. Actions:
//
//     0  setup, of the terminal's station, table block and flags
//     1  a word 2C61: its marks    2  silence: line    3  host write: address, count of words
//     4  queue read                5  table block      6  flags
//     7  words to send: block, count
use crate::notation::Bytes;
use crate::{given, notation, recordings};
use actions::Terminal;
use card::place::{Block, CARD_BLOCKS};
use card::sent;
use refusals::Refusal;

// What every word of the RAM is before a call.
const GIVEN: u16 = 0x1234;

// The refusal of an action that left something wrong.
const WRONG: u8 = 255;

// ---- the actions

enum Action {
    Setup,
    Word { marks: u8 },
    Silence { line: u8 },
    HostWrite { address: u16, count: u16 },
    ReadQueue,
    MoveTable { table: u16 },
    SetFlags { flags: u16 },
    WordsToSend { block: Block, count: u16 },
}

// The action of a number, with its arguments.
fn action_of(number: u16, first: u16, second: u16) -> Action {
    let [_, number] = number.to_be_bytes();
    let [_, low] = first.to_be_bytes();
    match number {
        0 => Action::Setup,
        1 => Action::Word { marks: low },
        2 => Action::Silence { line: low },
        3 => Action::HostWrite {
            address: first,
            count: second,
        },
        4 => Action::ReadQueue,
        5 => Action::MoveTable { table: first },
        7 => Action::WordsToSend {
            block: Block(first),
            count: second,
        },
        _ => Action::SetFlags { flags: first },
    }
}

fn number_of<A: Copy>(answer: Result<A, Refusal>) -> u8 {
    answer.err().map_or(0, u8::from)
}

// Where it is refused there is no terminal.
fn setup(terminal: &mut Terminal) -> u8 {
    let core = terminal.core;
    let made = Terminal::setup(core.station, core.table.0, core.flags);
    *terminal = made.unwrap_or(Terminal::of_no_station());
    number_of(made)
}

fn host_write(terminal: &Terminal, ram: &mut [u16], address: u16, count: u16) -> u8 {
    let words = [0x5555; 65];
    let end = usize::from(count % 66);
    number_of(terminal.host_write(ram, address, &words[..end]))
}

// A part that is refused is empty; one that is shown has the words that were asked for.
fn words_to_send(ram: &[u16], block: Block, count: u16) -> u8 {
    let number = sent::refusal(ram, CARD_BLOCKS, block, count).map_or(0, u8::from);
    let wanted = if number == 0 { count } else { 0 };
    let shown = sent::part(ram, CARD_BLOCKS, block, count).len();
    if shown == usize::from(wanted) {
        number
    } else {
        WRONG
    }
}

// Performs an action, and answers the number of its refusal.
fn perform(action: Action, terminal: &mut Terminal, ram: &mut [u16]) -> u8 {
    match action {
        Action::Setup => setup(terminal),
        Action::Word { marks } => number_of(terminal.word(ram, marks, 0x2C61, 9)),
        Action::Silence { line } => number_of(terminal.silence(ram, line, 9)),
        Action::HostWrite { address, count } => host_write(terminal, ram, address, count),
        Action::ReadQueue => number_of(terminal.read_queue()),
        Action::MoveTable { table } => number_of(terminal.move_table(table)),
        Action::SetFlags { flags } => number_of(terminal.set_flags(flags)),
        Action::WordsToSend { block, count } => words_to_send(ram, block, count),
    }
}

// ---- the cases

// The bytes of a row and of what the call must leave, at the most.
const CALL_BYTES: usize = 4096;

// What a call leaves, over as much of a RAM as the row says.
fn put_call(out: &mut Bytes<CALL_BYTES>, given: &[u8]) {
    let row = notation::row_of(given);
    let [action, first, second, size, _, _, _, _, _, place, ..] = row;
    let mut cells = [GIVEN; 16385];
    let Some(ram) = cells.get_mut(..usize::from(size)) else {
        return;
    };
    let mut terminal = given::terminal_of(row);
    let refusal = perform(action_of(action, first, second), &mut terminal, ram);
    let Terminal { core, queue } = terminal;
    notation::put_bytes(out, &[refusal]);
    notation::put_words(
        out,
        &[core.station, core.table.0, core.flags, queue.ring.start],
    );
    recordings::put_state(out, core, queue.ring);
    notation::put_others(out, &queue.places, place);
    notation::put_others(out, ram, GIVEN);
}

// Whether a call leaves this. One that cannot be run leaves nothing.
fn leaves(given: &[u8], wanted: &[u8]) -> bool {
    let mut left = Bytes::<CALL_BYTES>::new();
    put_call(&mut left, given);
    !left.is_empty() && left.as_slice() == wanted
}

// Whether a case comes out as it should, behind what its group begins with.
pub(crate) fn holds(before: &[u8], case: &[u8]) -> bool {
    let (row, rest) = notation::cut(case, b'=');
    let (state, _remark) = notation::cut(rest, b'#');
    let mut bytes = Bytes::<CALL_BYTES>::new();
    notation::leaves(&mut bytes, before, row, state, leaves)
}
