// The program of a tray run: the recording on standard input, its lines on standard output.
#![tactic(auto)]

use tray_stream;

fn main(rt: HostRuntime) {
    let mut input = rt.stdin();
    let mut output = rt.stdout();
    let mut ram: [u16; 16384] = [0; 16384];
    tray_stream::run_input(&mut input, &mut output, &mut ram);
}
