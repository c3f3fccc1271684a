// Numbers out of bytes, high byte first.
ghost use Rattle.std.specs.Prelude.{◌≡◌, ◌+◌, ◌*◌, ◌≤◌, length};
ghost use Rattle.recording.specs.Bytes.{bytes_left, word_at, time_at};

// How many bytes stand from a place on.
pub(crate) fn bytes_left(bytes: &[u8], place: usize) -> usize
    ensures { result ≡ bytes_left bytes.now place }
{
    bytes.len().saturating_sub(place)
}

// The number that two bytes spell.
pub fn of_bytes(high: u8, low: u8) -> u16
    ensures { result ≡ high * 256 + low }
{
    u16::from_be_bytes([high, low])
}

pub(crate) fn word_at(bytes: &[u8], place: usize) -> u16
    requires { place + 2 ≤ length bytes.now }
    ensures { result ≡ word_at bytes.now place }
{
    of_bytes(bytes[place], bytes[place + 1])
}

pub(crate) fn time_at(bytes: &[u8], place: usize) -> u32
    requires { place + 4 ≤ length bytes.now }
    ensures { result ≡ time_at bytes.now place }
{
    u32::from_be_bytes([
        bytes[place],
        bytes[place + 1],
        bytes[place + 2],
        bytes[place + 3],
    ])
}
