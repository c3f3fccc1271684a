// What a reader has seen of a recording, on which it depends whether a field comes in order.
ghost use Rattle.std.specs.Prelude.{◌≡◌};
ghost use Rattle.recording.specs.Seen.{nothing_seen, is_due, seen_after};

use crate::field::Field;
use crate::tag::Tag;

#[derive(Clone, Copy)]
pub struct Seen {
    // a setup has been read
    pub setup: bool,
}

impl Seen {
    // Before the first field.
    pub fn nothing() -> Seen
        ensures { result ≡ nothing_seen }
    {
        Seen { setup: false }
    }

    // Whether a field of this tag comes in order: a setup first, and once.
    pub(crate) fn is_due(self, tag: Tag) -> bool
        ensures { result ≡ is_due tag self }
    {
        self.setup != matches!(tag, Tag::Setup)
    }

    // What it has seen after a field that it takes.
    pub fn after(self, field: Field) -> Seen
        ensures { result ≡ seen_after field self }
    {
        Seen {
            setup: field.is_setup() || self.setup,
        }
    }
}
