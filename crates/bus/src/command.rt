// The fields of a command word: 15 to 11 address, 10 direction, 9 to 5 subaddress, 4 to 0 word
// count or mode code.
ghost use Rattle.std.specs.Prelude.{◌≡◌};
ghost use Rattle.bus.specs.Command.{
  address_of,
  subaddress_of,
  mode_code_of,
  words_of,
  is_transmit,
  is_broadcast,
  is_mode,
};

use crate::limits::ALL_STATIONS;

// The station that is spoken to; 31 speaks to all.
pub fn address(command: u16) -> u16
    ensures { result ≡ address_of command }
{
    command / 2048
}

// Direction bit 1: the station is to transmit.
pub fn is_transmit(command: u16) -> bool
    ensures { result ≡ is_transmit command }
{
    command / 1024 % 2 == 1
}

pub fn subaddress(command: u16) -> u16
    ensures { result ≡ subaddress_of command }
{
    command / 32 % 32
}

// The mode code, where the command is a mode command.
pub fn mode_code(command: u16) -> u16
    ensures { result ≡ mode_code_of command }
{
    command % 32
}

// The data words that a data command speaks of.
pub fn words(command: u16) -> u16
    ensures { result ≡ words_of command }
{
    let count = command % 32;
    // five bits cannot spell 32, so the standard lets 0 stand for it
    if count == 0 { 32 } else { count }
}

// To all stations.
pub fn is_broadcast(command: u16) -> bool
    ensures { result ≡ is_broadcast command }
{
    address(command) == ALL_STATIONS
}

// Subaddresses 0 and 31 are mode commands.
pub fn is_mode(command: u16) -> bool
    ensures { result ≡ is_mode command }
{
    matches!(subaddress(command), 0 | 31)
}
