// The program of a controller's run: the recording on standard input, its lines on standard output.
#![tactic(auto)]

use desk_stream;

fn main(rt: HostRuntime) {
    let mut input = rt.stdin();
    let mut output = rt.stdout();
    let mut ram: [u16; 16384] = [0; 16384];
    desk_stream::run_input(&mut input, &mut output, &mut ram);
}
