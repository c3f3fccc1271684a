// How far the numbers go by which stations, flags, marks and lines are told.

pub const LAST_STATION: u16 = 30;

// The address that speaks to all stations, and is none.
pub const ALL_STATIONS: u16 = 31;

// Bit 0 broadcast enabled, 1 busy, 2 service request, 3 subsystem flag, 4 bus control accepted,
// 5 terminal flag.
pub const ALL_FLAGS: u16 = 63;

// Bit 0 line, 1 command sync, 2 sound, 3 joined.
pub const ALL_MARKS: u8 = 15;

// Line A is 0, line B is 1.
pub const LAST_LINE: u8 = 1;
