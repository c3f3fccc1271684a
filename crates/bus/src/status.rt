// The status word: 15 to 11 station, 10 message error, 8 service request, 4 broadcast, 3 busy,
// 2 subsystem, 1 bus control, 0 terminal flag.
ghost use Rattle.std.specs.Prelude.{◌≡◌};
ghost use Rattle.bus.specs.Status.{status_word, caught_status, with_error};

use crate::command;

// A status word by what its bits say.
#[derive(Clone, Copy)]
pub struct Status {
    pub station: u16,
    pub error: bool,
    pub request: bool,
    pub broadcast: bool,
    pub busy: bool,
    pub subsystem: bool,
    pub control: bool,
    pub flag: bool,
}

impl Status {
    // The status that an opening makes: of the flags as they stand, of the command and whether it
    // is illegal, of busy as the opening found it, and of whether the terminal flag is inhibited.
    // The definitions take them in this order.
    #[tactic(auto, unfolding(crate::specs::Status::caught_status))]
    pub fn caught(
        station: u16,
        illegal: bool,
        command: u16,
        flags: u16,
        busy: bool,
        inhibit: bool,
    ) -> Status
        ensures { result ≡ caught_status station illegal command flags busy inhibit }
    {
        Status {
            station,
            error: illegal,
            request: flags / 4 % 2 == 1,
            broadcast: command::is_broadcast(command),
            busy,
            subsystem: flags / 8 % 2 == 1,
            control: flags / 16 % 2 == 1
                && !illegal
                && command::is_mode(command)
                && command::mode_code(command) == 0,
            flag: flags / 32 % 2 == 1 && !inhibit,
        }
    }

    // The word that goes out. A station has five bits.
    #[tactic(auto, unfolding(crate::specs::Status::status_word))]
    pub fn word(self) -> u16
        ensures { result ≡ status_word self }
    {
        self.station % 32 * 2048
            + bits::weigh(self.error, 1024)
            + bits::weigh(self.request, 256)
            + bits::weigh(self.broadcast, 16)
            + bits::weigh(self.busy, 8)
            + bits::weigh(self.subsystem, 4)
            + bits::weigh(self.control, 2)
            + bits::weigh(self.flag, 1)
    }
}

// A status word with its message error bit set.
#[tactic(auto, unfolding(crate::specs::Status::without_error, crate::specs::Status::with_error))]
pub fn with_error(status: u16) -> u16
    ensures { result ≡ with_error status }
{
    status / 2048 * 2048 + status % 1024 + 1024
}
