// What a field of a controller's recording holds.
ghost use Rattle.std.specs.Prelude.{◌≡◌};
ghost use Rattle.desk.specs.Reading.{seen_after};

use recording;
use recording::Seen;

#[derive(Clone, Copy)]
pub enum Field {
    // 0A: the control word and how many messages may be started
    Setup { control: u16, count: u16 },
    // 0B
    Start,
    // 02, 03 and 05: a word, a silence or a write, as document 01 has them
    Shared(recording::Field),
}

impl Field {
    // What the reader has seen after this field.
    pub(crate) fn seen_after(self, seen: Seen) -> Seen
        ensures { result ≡ seen_after self seen }
    {
        match self {
            Field::Setup { .. } => Seen { setup: true },
            Field::Start | Field::Shared(_) => seen,
        }
    }
}
