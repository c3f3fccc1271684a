// How far a run has come, and how it begins.
ghost use Rattle.std.specs.Prelude.{◌≡◌, ◌+◌};

use controller::state::Controller;
use recording::Seen;

// How far a run has come. The memory is lent.
#[derive(Clone, Copy)]
pub struct Run {
    pub controller: Controller,
    // what the reader has seen
    pub seen: Seen,
    // how many fields were taken
    pub fields: u64,
    // where in the recording the next one begins
    pub offset: u64,
}

impl Run {
    ghost use Rattle.pieces.specs.LastLine.{counted};
    ghost use Rattle.desk.specs.AsCoded.Held.{held_at_start};

    // Before the first field: the controller may start nothing.
    #[tactic(auto, unfolding(crate::specs::AsCoded::Held::held_at_start))]
    pub fn at_start() -> Run
        ensures { result ≡ held_at_start }
    {
        Run {
            controller: Controller::setup(0, 0),
            seen: Seen::nothing(),
            fields: 0,
            offset: 0,
        }
    }

    // Counts fields that were taken, and their bytes. Each run has its own counters, as its
    // definition has.
    pub(crate) fn pass(&mut self, fields: u64, bytes: u64)
        ensures { self.new ≡ record self.old {
          fields = counted (self.old.fields + fields);
          offset = counted (self.old.offset + bytes);
        } }
    {
        self.fields = self.fields.wrapping_add(fields);
        self.offset = self.offset.wrapping_add(bytes);
    }
}
