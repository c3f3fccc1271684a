// The terminal that a row of a call describes, fit or not, from its fifth word on: station, table
// block, flags; queue start, count, and what every place holds; the open command, its block, table
// block and words taken, the second command (0 for none), the stage (0 for nothing open). Words
// that the row has not are 0. Status and last command hold what no message makes, and all marks are
// set.
use crate::notation::Row;
use actions::Terminal;
use card::place::Block;
use message::state::{OpenMessage, Stage};
use queue::{Queue, Ring};
use terminal::state::{Core, Shut};

fn second_of(command: u16) -> Option<u16> {
    match command {
        0 => None,
        _ => Some(command),
    }
}

fn stage_of(number: u16) -> Option<Stage> {
    match number {
        0 => None,
        1 => Some(Stage::Data),
        2 => Some(Stage::SecondCommand),
        3 => Some(Stage::AwaitingStatus),
        _ => Some(Stage::Skipping),
    }
}

pub(crate) fn terminal_of(row: Row) -> Terminal {
    let [_, _, _, _, station, table, flags, start, count, place, ..] = row;
    let [.., command, block, opened_table, taken, second, stage] = row;
    let message = stage_of(stage).map(|stage| OpenMessage {
        command,
        line: false,
        block: Block(block),
        table: Block(opened_table),
        moved: false,
        busy: false,
        queued: false,
        opened: 0,
        taken,
        second: second_of(second),
        stage,
    });
    Terminal {
        core: Core {
            station,
            table: Block(table),
            flags,
            status: 0xFFFF,
            last: 0xFFFF,
            shut: Shut { a: true, b: true },
            inhibit: true,
            message,
        },
        queue: Queue {
            places: [place; 256],
            ring: Ring {
                start,
                count,
                overflow: true,
            },
        },
    }
}
