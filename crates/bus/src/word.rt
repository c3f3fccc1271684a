// A word from the bus, decoded.
ghost use Rattle.std.specs.Prelude.{◌≡◌};
ghost use Rattle.bus.specs.Word.{word_of};

#[derive(Clone, Copy)]
pub struct Word {
    // line B: document 01's bit of the line, A is 0 and B is 1, a truth value as in the definitions
    pub line: bool,
    // command sync
    pub sync: bool,
    pub sound: bool,
    pub joined: bool,
    pub value: u16,
    pub time: u32,
}

// A word by its marks: bit 0 line, 1 command sync, 2 sound, 3 joined.
pub fn word_of(marks: u8, value: u16, time: u32) -> Word
    ensures { result ≡ word_of marks value time }
{
    Word {
        line: marks / 1 % 2 == 1,
        sync: marks / 2 % 2 == 1,
        sound: marks / 4 % 2 == 1,
        joined: marks / 8 % 2 == 1,
        value,
        time,
    }
}
