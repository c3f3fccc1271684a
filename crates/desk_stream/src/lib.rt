// A controller's run of the recording on standard input, its lines on standard output.
#![tactic(auto)]

ghost use Rattle.stream.specs.Came.{Came};
ghost use Rattle.stream.specs.Known.{PrintsKnown};
ghost use Rattle.desk.specs.Run.{run_at_start, desk_course};
ghost use Rattle.desk.specs.AsCoded.Held.{run_of};

use desk::Run;
use std::io::{Read, Write};

// What a run leaves, and whether it is whole: it came to its own end, and the operating system took
// every line of it. `Came` speaks of what is left by a run that broke off too, so both stand here.
#[derive(Clone, Copy)]
pub struct Done {
    pub run: Run,
    pub whole: bool,
}

// Runs the recording on the input over the lent memory, which starts zero, whatever it held.
// A tray run has a function like it: one for both would want a start of every runner, in code and
// in contract, and a type for what it leaves, which is more than these four lines twice.
pub fn run_input<I: Read, O: Write>(input: &mut I, output: &mut O, ram: &mut [u16; 16384]) -> Done
    ensures came { Came desk_course run_at_start
        (run_of result.run ram.new) result.whole }
    ensures known { PrintsKnown desk_course run_at_start
        (run_of result.run ram.new) result.whole
        (I.remaining input.old) (O.contents output.old) (O.contents output.new) }
{
    *ram = [0; 16384];
    let mut run = Run::at_start();
    let whole = stream::run_input(&mut run, ram, input, output);
    Done { run, whole }
}
