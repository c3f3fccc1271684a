// A call over a window of the recording: every whole field of it, and their lines in the buffer.
ghost use Rattle.std.specs.Prelude.{◌≡◌};
ghost use Rattle.lines.specs.Page.{on};
ghost use Rattle.pieces.specs.AsCoded.OnPage.{OnPage};
ghost use Rattle.pieces.specs.AsCoded.Window.{passed, turn, window_run};
ghost use Rattle.pieces.specs.AsCoded.Runner.{passed_of, going_at};

use crate::runner::Runner;
use crate::stop::{Stop, stop_at};
use lines::{LINE_ROOM, Page};

// What a call leaves: the place in the window, how many bytes of lines there are, and why it
// stopped.
#[derive(Clone, Copy)]
pub struct Passed {
    pub at: usize,
    pub put: usize,
    pub stop: Stop,
}

// One field, if there is room for its line. Answers the place behind it, or the same, and whether
// and why the call stops.
fn turn<R: Runner>(
    run: &mut R,
    ram: &mut [u16],
    window: &[u8],
    last: bool,
    at: usize,
    page: &mut Page,
) -> (usize, Stop)
    ensures { OnPage page.old page.new
        (passed (R.run_of run.new ram.new) result.0 (on page.new) result.1)
        (turn R.course window.now last
        (going_at (R.run_of run.old ram.old) at page.old.at page.old.out.now)) }
{
    if page.out.len().saturating_sub(page.at) < LINE_ROOM {
        return (at, Stop::Full);
    }
    let number = match run.take_field(ram, window, at, page) {
        Ok(Some(next)) => return (next, Stop::Going),
        Ok(None) => 0,
        Err(refusal) => u8::from(refusal),
    };
    (at, stop_at(page, number, last, run.fields(), run.offset()))
}

// Every whole field of the window, from its first byte on, and their lines from the buffer's first
// byte on. `last`: no more bytes will come.
pub fn run_window<R: Runner>(
    run: &mut R,
    ram: &mut [u16],
    window: &[u8],
    out: &mut [u8],
    last: bool,
) -> Passed
    ensures { passed_of (R.run_of run.new ram.new) result out.new
        ≡ window_run R.course (R.run_of run.old ram.old) window.now last out.old }
{
    let mut page = Page { out, at: 0 };
    let mut at = 0;
    let mut stop = Stop::Going;
    // counted down by hand: a row takes many turns at once
    let mut turns = u64::MAX;
    while turns > 0 && stop.is_going() {
        let room = page.out.len().saturating_sub(page.at);
        let row = run.take_row(ram, window, at, room, turns);
        (at, stop) = turn(run, ram, window, last, row.at, &mut page);
        turns = row.left - 1;
    }
    Passed {
        at,
        put: page.at,
        stop,
    }
}
