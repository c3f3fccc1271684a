// The library for other programs: a whole recording over a card memory and into a buffer that the
// caller lends. `listrabor_c` hands the same out to C.
#![tactic(auto)]

ghost use Rattle.std.specs.Prelude.{◌≡◌};
ghost use Rattle.refusals.specs.Number.{refusal_in};
ghost use Rattle.listrabor.specs.Lent.{room_for, size_refusal, lent, lent_run};

use card::place::CARD_WORDS;
use lines::LINE_ROOM;
use refusals::Refusal;
use tray::Tray;

// The bytes of text that a byte of a recording brings at the most.
const LINE_BYTES: usize = 21;

// The longest recording whose room is a number of 64 bits.
const LONGEST: usize = 878416384462359592;

// How long a buffer has to be for a recording of so many bytes.
pub fn listrabor_room(bytes: usize) -> usize
    ensures { result ≡ room_for bytes }
{
    if LONGEST < bytes {
        return usize::MAX;
    }
    LINE_BYTES * bytes + LINE_ROOM
}

// Why the bytes of a recording, the words of a RAM and the room of a buffer are refused, and none
// where they can be used.
pub fn listrabor_refusal(bytes: usize, words: usize, room: usize) -> Option<Refusal>
    ensures { refusal_in result ≡ size_refusal bytes words room }
{
    if words != CARD_WORDS {
        return Some(Refusal::Memory);
    }
    if room < LINE_ROOM || (room - LINE_ROOM) / LINE_BYTES < bytes {
        return Some(Refusal::Room);
    }
    None
}

// Runs a recording. Answers how many bytes of text stand in the buffer then: none where a size is
// refused, and nothing is touched then. A count and no `Result`: C is handed the same.
pub fn listrabor_run(recording: &[u8], ram: &mut [u16], out: &mut [u8]) -> usize
    ensures { lent result ram.new out.new
        ≡ lent_run recording.now ram.old out.old }
{
    if listrabor_refusal(recording.len(), ram.len(), out.len()).is_some() {
        return 0;
    }
    let mut tray = Tray::at_start();
    pieces::run_window(&mut tray, ram, recording, out, true).put
}
