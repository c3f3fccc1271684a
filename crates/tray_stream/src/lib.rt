// A tray run of the recording on standard input, its lines on standard output.
#![tactic(auto)]

ghost use Rattle.stream.specs.Came.{Came};
ghost use Rattle.stream.specs.Known.{PrintsKnown};
ghost use Rattle.tray.specs.Run.{tray_at_start, tray_course};
ghost use Rattle.tray.specs.AsCoded.Held.{tray_of};

use std::io::{Read, Write};
use tray::Tray;

// What a run leaves, and whether it is whole: it came to its own end, and the operating system took
// every line of it. `Came` speaks of what is left by a run that broke off too, so both stand here.
#[derive(Clone, Copy)]
pub struct Done {
    pub tray: Tray,
    pub whole: bool,
}

// Runs the recording on the input over the lent memory, which starts zero, whatever it held.
// A controller's run has a function like it: one for both would want a start of every runner, in
// code and in contract, and a type for what it leaves, which is more than these four lines twice.
pub fn run_input<I: Read, O: Write>(input: &mut I, output: &mut O, ram: &mut [u16; 16384]) -> Done
    ensures came { Came tray_course tray_at_start
        (tray_of result.tray ram.new) result.whole }
    ensures known { PrintsKnown tray_course tray_at_start
        (tray_of result.tray ram.new) result.whole
        (I.remaining input.old) (O.contents output.old) (O.contents output.new) }
{
    *ram = [0; 16384];
    let mut tray = Tray::at_start();
    let whole = stream::run_input(&mut tray, ram, input, output);
    Done { tray, whole }
}
