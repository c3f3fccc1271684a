// A row of data words, taken at once: most fields of a busy rack are such words, and each touches a
// few numbers and a cell alone. Here they are found in the recording and stored; whose they are,
// the terminal's or the controller's, the caller knows.
#![tactic(auto)]

ghost use Rattle.std.specs.Prelude.{◌≡◌};
ghost use Rattle.rows.specs.Row.{marks_on, stored, row_stored, may_take, row_left, row_taken};

use card::memory;
use card::place::{Block, Cell};
use lines;
use recording;

// Where the words of a row go.
#[derive(Clone, Copy)]
pub struct Row {
    pub block: Block,
    // the next one's cell
    pub cell: u16,
    // the cell behind the last
    pub end: u16,
}

// How far a row has come: the next word's cell, and its place in the recording.
#[derive(Clone, Copy)]
struct Reach {
    cell: u16,
    at: usize,
}

// What a row leaves: how many words there were, the next one's cell, the place behind them, and how
// many turns are left.
#[derive(Clone, Copy)]
pub struct Taken {
    pub words: u16,
    pub cell: u16,
    pub at: usize,
    pub left: u64,
}

// Data sync, sound and joined, on a line.
fn marks_on(line: bool) -> u8
    ensures { result ≡ marks_on line }
{
    if line { 13 } else { 12 }
}

impl Row {
    // Stores the data words on a line that stand next, as many as are wanted.
    fn store(self, ram: &mut [u16], bytes: &[u8], place: usize, line: bool) -> Reach
        ensures { stored result ram.new
            ≡ row_stored bytes.now place line self ram.old }
    {
        let marks = marks_on(line);
        let mut cell = self.cell;
        let mut at = place;
        // the row ends at the first word that is not there, and says how far it came
        while cell < self.end
            && let Some(found) = recording::find_word(bytes, at, marks)
        {
            memory::write_cell(ram, self.block, Cell(cell), found.value);
            cell += 1;
            at = found.next;
        }
        Reach { cell, at }
    }

    // Whether words may be taken: after a setup, with room for a line, where more turns are left
    // than the row has words, and if one is wanted.
    fn may_take(self, setup: bool, room: usize, most: u64) -> bool
        ensures { result ≡ may_take self setup room most }
    {
        setup && lines::LINE_ROOM <= room && u64::from(self.end) < most && self.cell < self.end
    }

    // Takes the data words on a line that stand next, as many as are wanted: after a setup, with
    // room for a line, and where turns are left for all of them. Each is a turn.
    pub fn take(
        self,
        ram: &mut [u16],
        bytes: &[u8],
        place: usize,
        line: bool,
        setup: bool,
        room: usize,
        most: u64,
    ) -> Taken
        ensures { row_left result ram.new
            ≡ row_taken bytes.now place line setup room most self ram.old }
    {
        if !self.may_take(setup, room, most) {
            return Taken {
                words: 0,
                cell: self.cell,
                at: place,
                left: most,
            };
        }
        let reach = self.store(ram, bytes, place, line);
        let words = reach.cell - self.cell;
        Taken {
            words,
            cell: reach.cell,
            at: reach.at,
            left: most - (words as u64),
        }
    }
}
