// A program that runs a recording from standard input and writes its lines to standard output,
// whatever the fields of the recording are. The input is read in large pieces into one window and
// the lines of a call are written at once, so that memory stays the same whatever the length.
#![tactic(auto)]

ghost use Rattle.std.specs.Prelude.{◌≡◌, ◌≢◌, ◌≤◌, ℕ, [], IsErr, OnOk};
ghost use Rattle.std.specs.Io.KnownBytes.{Appends};
ghost use Rattle.pieces.specs.Steady.{Steady};
ghost use Rattle.pieces.specs.AsCoded.Window.{window_run};
ghost use Rattle.stream.specs.Progress.{buffer_bytes};
ghost use Rattle.stream.specs.Came.{Came};
ghost use Rattle.stream.specs.Known.{PrintsKnown};
ghost use Rattle.stream.specs.AsCoded.Turns.{Turned};

mod window;

use crate::window::BUFFER_BYTES;
use pieces::{Runner, Stop};
use std::io;
use std::io::{ErrorKind, Read, Write};
pub use window::Window;

// Writes the lines of a call, which cannot fail where there are none.
fn write_lines<O: Write>(output: &mut O, lines: &[u8]) -> io::Result<()>
    ensures some { IsErr result → lines.now ≢ [] }
    ensures written { OnOk result
        (Appends (O.contents output.old) (O.contents output.new) lines.now) }
{
    if lines.is_empty() {
        return Ok(());
    }
    output.write_all(lines)
}

// A turn: a call over the window, whose lines are written and whose bytes are taken, and a read
// where it needs bytes. Answers whether the run is over. It is public for a loop of another
// program's own, and its promise is of every runner, steady or not.
pub fn turn<R: Runner, I: Read, O: Write>(
    run: &mut R,
    ram: &mut [u16],
    window: &mut Window,
    out: &mut [u8],
    input: &mut I,
    output: &mut O,
) -> io::Result<bool>
    ensures { Turned R.course (R.run_of run.old ram.old) window.old out.old
        (R.run_of run.new ram.new) window.new
        (I.remaining input.old) (I.remaining input.new)
        (O.contents output.old) (O.contents output.new) result }
{
    let passed = pieces::run_window(run, ram, window.bytes(), out, window.has_ended());
    window.take_to(passed.at);
    // no steady course puts more than there is room for, and one that did breaks off
    if out.len() < passed.put {
        return Err(ErrorKind::StorageFull.into());
    }
    write_lines(output, &out[..passed.put])?;
    match passed.stop {
        Stop::Over => Ok(true),
        Stop::Going | Stop::Full => Ok(false),
        Stop::Hungry => {
            // no steady course needs bytes with a full window, and one that did breaks off
            if window.is_full() {
                return Err(ErrorKind::StorageFull.into());
            }
            window.read(input)?;
            Ok(false)
        }
    }
}

// Runs the recording on the input, from where the run is, and writes its lines to the output.
// Answers whether the run is whole: it came to its own end, and the operating system took every
// line of it. A read or a write that fails ends the program, and no last line is printed.
pub fn run_input<R: Runner, I: Read, O: Write>(
    run: &mut R,
    ram: &mut [u16],
    input: &mut I,
    output: &mut O,
) -> bool
    ensures came { (longest : ℕ) → Steady R.course longest → longest ≤ buffer_bytes
        → Came R.course (R.run_of run.old ram.old) (R.run_of run.new ram.new) result }
    ensures known { (longest : ℕ) → Steady R.course longest → longest ≤ buffer_bytes
        → PrintsKnown R.course (R.run_of run.old ram.old) (R.run_of run.new ram.new) result
        (I.remaining input.old) (O.contents output.old) (O.contents output.new) }
{
    let mut window = Window::empty();
    let mut out = [0; BUFFER_BYTES];
    for _ in 0..u64::MAX {
        match turn(run, ram, &mut window, &mut out, input, output) {
            Ok(false) => {}
            Ok(true) => return true,
            Err(_) => return false,
        }
    }
    false
}
