// How far a run has come, and where it begins.
ghost use Rattle.std.specs.Prelude.{◌≡◌, ◌+◌};

use bus::limits::ALL_STATIONS;
use card::place::Block;
use queue::Queue;
use recording::Seen;
use terminal::state::Core;

// How far a run has come. The RAM is lent.
#[derive(Clone, Copy)]
pub struct Tray {
    pub core: Core,
    pub queue: Queue,
    // what the reader has seen
    pub seen: Seen,
    // how many fields were taken
    pub fields: u64,
    // where in the recording the next one begins
    pub offset: u64,
}

impl Tray {
    ghost use Rattle.pieces.specs.LastLine.{counted};
    ghost use Rattle.tray.specs.AsCoded.Held.{held_at_start};

    // Before the first field: the core is of no station.
    pub fn at_start() -> Tray
        ensures { result ≡ held_at_start }
    {
        Tray {
            core: Core::at_setup(ALL_STATIONS, Block(0), 0),
            queue: Queue::empty(),
            seen: Seen::nothing(),
            fields: 0,
            offset: 0,
        }
    }

    // Counts fields that were taken, and their bytes. Each run has its own counters, as its
    // definition has.
    pub(crate) fn pass(&mut self, fields: u64, bytes: u64)
        ensures { self.new ≡ record self.old {
          fields = counted (self.old.fields + fields);
          offset = counted (self.old.offset + bytes);
        } }
    {
        self.fields = self.fields.wrapping_add(fields);
        self.offset = self.offset.wrapping_add(bytes);
    }
}
