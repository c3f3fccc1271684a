// The state word of cell 58: 15 line, 14 fault, 13 broadcast, 12 second command taken, 11 busy,
// 10 to 8 fault code, 5 to 0 data words stored or held by the reply given.
ghost use Rattle.std.specs.Prelude.{◌≡◌};
ghost use Rattle.card.specs.StateWord.{state_word};

// A state word by what its bits say.
#[derive(Clone, Copy)]
pub struct State {
    // line B
    pub line: bool,
    pub fault: bool,
    pub broadcast: bool,
    pub second: bool,
    pub busy: bool,
    // any number, since a caller may hand in any
    pub code: u16,
    pub words: u16,
}

impl State {
    // The code has three bits and the words have six.
    #[tactic(auto, unfolding(crate::specs::StateWord::state_word))]
    pub fn word(self) -> u16
        ensures { result ≡ state_word self }
    {
        bits::weigh(self.line, 32768)
            + bits::weigh(self.fault, 16384)
            + bits::weigh(self.broadcast, 8192)
            + bits::weigh(self.second, 4096)
            + bits::weigh(self.busy, 2048)
            + self.code % 8 * 256
            + self.words % 64
    }
}
