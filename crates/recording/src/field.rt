// The fields of a recording: what stands in the value of each tag. A field is a tag of one byte, a
// length of two and a value of that length.
ghost use Rattle.std.specs.Prelude.{◌≡◌, cond, ◌+◌, ◌≤◌, length};
ghost use Rattle.refusals.specs.Number.{number_of, refused};
ghost use Rattle.recording.specs.Field.{
  setup_field,
  word_field,
  silence_field,
  write_field,
  field_at,
  value_refusal,
  is_setup,
  ValueThere,
};

use crate::bytes;
use crate::tag::Tag;
use bus::limits::{ALL_FLAGS, ALL_MARKS, LAST_LINE, LAST_STATION};
use card::host;
use refusals::Refusal;

// What a field holds, in the order of the tags 01 to 07.
#[derive(Clone, Copy)]
pub enum Field {
    Setup {
        station: u8,
        table: u8,
        flags: u8,
    },
    // marks: bit 0 line, 1 command sync, 2 sound, 3 joined
    Word {
        marks: u8,
        value: u16,
        time: u32,
    },
    Silence {
        line: u8,
        time: u32,
    },
    ReadQueue,
    // `count` words stand in the input from `first` on, two bytes each, high byte first
    HostWrite {
        address: u16,
        first: usize,
        count: usize,
    },
    MoveTable {
        table: u8,
    },
    SetFlags {
        flags: u8,
    },
}

impl Field {
    pub(crate) fn is_setup(self) -> bool
        ensures { result ≡ is_setup self }
    {
        matches!(self, Field::Setup { .. })
    }

    // Refusals 2, 3 and 8 by what the field holds, in that order, on a card of so many blocks. One
    // byte cannot spell a table block above 255 today; the test for 3 stands where document 01's
    // order has it.
    pub(crate) fn in_order(self, blocks: u16) -> Result<(), Refusal>
        ensures { refused result ≡ value_refusal blocks self }
    {
        match self {
            Field::Setup {
                station,
                table,
                flags,
            } => {
                unless(u16::from(station) <= LAST_STATION, Refusal::Station)?;
                unless(u16::from(table) < blocks, Refusal::TableBlock)?;
                unless(u16::from(flags) <= ALL_FLAGS, Refusal::Value)
            }
            Field::Word { marks, .. } => unless(marks <= ALL_MARKS, Refusal::Value),
            Field::Silence { line, .. } => unless(line <= LAST_LINE, Refusal::Value),
            Field::ReadQueue => Ok(()),
            Field::HostWrite { address, count, .. } => {
                unless(host::is_write(blocks, address, count), Refusal::Value)
            }
            Field::MoveTable { table } => unless(u16::from(table) < blocks, Refusal::TableBlock),
            Field::SetFlags { flags } => unless(u16::from(flags) <= ALL_FLAGS, Refusal::Value),
        }
    }
}

// A refusal, unless what is tested is so.
fn unless(is_so: bool, refusal: Refusal) -> Result<(), Refusal>
    ensures { refused result ≡ cond is_so 0 (number_of refusal) }
{
    if is_so { Ok(()) } else { Err(refusal) }
}

fn setup_field(bytes: &[u8], value: usize) -> Field
    requires { value + 3 ≤ length bytes.now }
    ensures { result ≡ setup_field bytes.now value }
{
    Field::Setup {
        station: bytes[value],
        table: bytes[value + 1],
        flags: bytes[value + 2],
    }
}

fn word_field(bytes: &[u8], value: usize) -> Field
    requires { value + 7 ≤ length bytes.now }
    ensures { result ≡ word_field bytes.now value }
{
    Field::Word {
        marks: bytes[value],
        value: bytes::word_at(bytes, value + 1),
        time: bytes::time_at(bytes, value + 3),
    }
}

fn silence_field(bytes: &[u8], value: usize) -> Field
    requires { value + 5 ≤ length bytes.now }
    ensures { result ≡ silence_field bytes.now value }
{
    Field::Silence {
        line: bytes[value],
        time: bytes::time_at(bytes, value + 1),
    }
}

fn write_field(bytes: &[u8], value: usize, size: usize) -> Field
    requires { (2 ≤ size) × (value + size ≤ length bytes.now) }
    ensures { result ≡ write_field bytes.now value size }
{
    Field::HostWrite {
        address: bytes::word_at(bytes, value),
        first: value + 2,
        count: (size - 2) / 2,
    }
}

// The field of a tag, where its value stands whole in the bytes and has a length of the tag's.
#[tactic(auto, unfolding(crate::specs::Tag::length_fits, crate::specs::Field::field_at))]
pub(crate) fn field_at(bytes: &[u8], tag: Tag, value: usize, size: usize) -> Field
    requires { ValueThere bytes.now tag value size }
    ensures { result ≡ field_at bytes.now tag value size }
{
    match tag {
        Tag::Setup => setup_field(bytes, value),
        Tag::Word => word_field(bytes, value),
        Tag::Silence => silence_field(bytes, value),
        Tag::ReadQueue => Field::ReadQueue,
        Tag::HostWrite => write_field(bytes, value, size),
        Tag::MoveTable => Field::MoveTable {
            table: bytes[value],
        },
        Tag::SetFlags => Field::SetFlags {
            flags: bytes[value],
        },
    }
}
