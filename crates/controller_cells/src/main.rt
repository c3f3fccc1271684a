// The program of a controller's run that shows what the run left: the recording on standard input;
// on standard output its lines, then the controller's state, an item a line, then every nonzero
// cell of its memory, rising.
#![tactic(auto)]

mod state;

use desk::Run;
use desk_stream;
use lines::Page;
use shown::cells;
use std::io::Write;

// State and cells, in one write. There is room for both (`nothing_is_cut`): the state takes less
// than 300 bytes, and 16,384 cells take 163,840, at 10 bytes a line.
// Each program has its own: what the two share is less than what would name their states.
// The tray's program has a function like it: one for both would take the state's text as a
// closure.
fn print_left<O: Write>(output: &mut O, run: Run, ram: &[u16]) {
    let mut space: [u8; 172032] = [0; 172032];
    let mut page = Page {
        out: &mut space,
        at: 0,
    };
    state::put_state(&mut page, run);
    cells::put_cells(&mut page, ram);
    // whether they were taken is not asked: nothing comes behind them
    let _ = output.write_all(page.written());
}

fn main(rt: HostRuntime) {
    let mut input = rt.stdin();
    let mut output = rt.stdout();
    let mut ram: [u16; 16384] = [0; 16384];
    let done = desk_stream::run_input(&mut input, &mut output, &mut ram);
    // of a run that broke off, by a read or a write that failed, nothing more is printed
    if !done.whole {
        return;
    }
    print_left(&mut output, done.run, &ram);
}
