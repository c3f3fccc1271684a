// How many words an open message takes and stores.
ghost use Rattle.std.specs.Prelude.{◌≡◌};
ghost use Rattle.message.specs.Wants.{wants};

use crate::state::{OpenMessage, Stage};

impl OpenMessage {
    // As many as its command asks for, while it is in its data and does not keep them back.
    pub fn wants(self) -> u16
        ensures { result ≡ wants self }
    {
        match self.stage {
            Stage::Data => {
                let asked = self.asks();
                if self.busy & asked.yields {
                    0
                } else {
                    asked.takes
                }
            }
            Stage::SecondCommand | Stage::AwaitingStatus | Stage::Skipping => 0,
        }
    }
}
