// The library for C. `include/listrabor.h` declares the same; nothing checks the two against each
// other.
#![tactic(auto)]

ghost use Rattle.std.specs.Prelude.{◌≡◌};
ghost use Rattle.listrabor.specs.Lent.{room_for, size_refusal, lent, lent_run};

use listrabor;

// How long a buffer has to be for a recording of so many bytes.
#[unsafe(no_mangle)]
pub extern "C" fn listrabor_room(bytes: usize) -> usize
    ensures { result ≡ room_for bytes }
{
    listrabor::listrabor_room(bytes)
}

// The number by which the bytes of a recording, the words of a RAM and the room of a buffer are
// refused, and 0 where they can be used.
#[unsafe(no_mangle)]
pub extern "C" fn listrabor_refusal(bytes: usize, words: usize, room: usize) -> u32
    ensures { result ≡ size_refusal bytes words room }
{
    listrabor::listrabor_refusal(bytes, words, room).map_or(
        0,
        |refusal| u32::from(u8::from(refusal)),
    )
}

// Runs a recording. Answers how many bytes of text stand in the buffer then: none where a size is
// refused, and nothing is touched then.
#[unsafe(no_mangle)]
pub extern "C" fn listrabor_run(recording: &[u8], ram: &mut [u16], out: &mut [u8]) -> usize
    ensures { lent result ram.new out.new
        ≡ lent_run recording.now ram.old out.old }
{
    listrabor::listrabor_run(recording, ram, out)
}
