// Worked cases, run through the compiled library and compared with what they should be: a line for
// each group, as `mode codes 256 of 256`, and a line for each case that differs. The cases are
// data, on standard input: as code, or as bytes of a literal, they would take long to check and say
// no more. `notation` says how they are written, `groups` walks them. `recordings` runs those that
// are recordings, `calls` those that are calls of the library's actions on a `given` terminal.
#![tactic(auto)]

mod calls;
mod given;
mod groups;
mod notation;
mod recordings;
mod report;

use std::io;
use std::io::Read;

// How many bytes of a text are read: one of more is cut, and the counts tell.
const TEXT_BYTES: usize = 524288;

// Reads until the text is full or the input has ended, and answers how many bytes came.
fn read_full<I: Read>(input: &mut I, text: &mut [u8]) -> io::Result<usize> {
    let mut size = 0;
    // a read may bring less than there is room for, so no `for` counts them
    while size < text.len() {
        match input.read(&mut text[size..])? {
            0 => break,
            count => size += count,
        }
    }
    Ok(size)
}

fn main(rt: HostRuntime) -> io::Result<()> {
    let mut bytes = [0; TEXT_BYTES];
    let text: &mut [u8] = &mut bytes;
    let size = read_full(&mut rt.stdin(), text)?;
    let mut output = rt.stdout();
    let all = groups::run(&mut output, text.get(..size).unwrap_or(&[]))?;
    all.print(&mut output, b"vectors")
}
