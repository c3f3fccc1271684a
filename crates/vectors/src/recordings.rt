// Runs a case that is a recording: the printed lines, the state and the whole of the card are
// compared.
use crate::notation;
use crate::notation::Bytes;
use message::state::Stage;
use queue::Ring;
use std::io::Write;
use terminal::state::Core;
use tray::Tray;

// ---- what a run leaves, in the bytes of the notation

fn marks_of(core: Core, ring: Ring) -> u8 {
    u8::from(core.shut.a)
        | u8::from(core.shut.b) << 1
        | u8::from(core.inhibit) << 2
        | u8::from(ring.overflow) << 3
}

fn number_of(stage: Stage) -> u8 {
    match stage {
        Stage::Data => 1,
        Stage::SecondCommand => 2,
        Stage::AwaitingStatus => 3,
        Stage::Skipping => 4,
    }
}

pub(crate) fn put_state<W: Write>(out: &mut W, core: Core, ring: Ring) {
    notation::put_words(out, &[core.status, core.last]);
    let [_, waiting] = ring.count.to_be_bytes();
    notation::put_bytes(out, &[marks_of(core, ring), waiting]);
    if let Some(open) = core.message {
        notation::put_words(out, &[open.command, open.block.0]);
        let moved = u8::from(open.moved) << 7;
        notation::put_bytes(out, &[number_of(open.stage) | moved]);
    }
}

// ---- a case

// The bytes of a recording and of the state that it must leave, and those of what it leaves, at the
// most.
const CASE_BYTES: usize = 65536;

// What a recording prints, and leaves on a new card. Answers how many bytes that is.
fn put_run(out: &mut [u8], recording: &[u8]) -> usize {
    let mut tray = Tray::at_start();
    let mut ram = [0; 16384];
    let passed = pieces::run_window(&mut tray, &mut ram, recording, out, true);
    let room = out.len();
    let mut rest = out.get_mut(passed.put..).unwrap_or(&mut []);
    put_state(&mut rest, tray.core, tray.queue.ring);
    notation::put_others(&mut rest, &ram, 0);
    room.saturating_sub(rest.len())
}

// Whether a recording prints these lines, and leaves this.
fn leaves(recording: &[u8], lines: &[u8], wanted: &[u8]) -> bool {
    // the lines are looked for where zeros stand behind what is left
    let mut left = [0; CASE_BYTES];
    let size = put_run(&mut left, recording);
    left.starts_with(lines) && left.get(lines.len()..size).unwrap_or(&[]) == wanted
}

// Whether a case comes out as it should, behind what its group begins with.
pub(crate) fn holds(before: &[u8], case: &[u8]) -> bool {
    let (_title, rest) = notation::cut(case, b'\n');
    let (text, rest) = notation::cut(rest, b'>');
    let (_, rest) = notation::cut(rest, b'\n');
    let (lines, state) = notation::cut(rest, b'=');
    let mut bytes = Bytes::<CASE_BYTES>::new();
    notation::leaves(&mut bytes, before, text, state, |recording, wanted| {
        leaves(recording, lines, wanted)
    })
}
