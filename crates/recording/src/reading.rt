// The reader: what stands at a place of a recording, a field or a refusal, in the reader's order.
ghost use Rattle.std.specs.Prelude.{◌≡◌, ◌<◌, length};
ghost use Rattle.recording.specs.Reading.{reading, reading_there, read_at};

use crate::field::Field;
use crate::seen::Seen;
use crate::{bytes, field, tag};
use card::place::CARD_BLOCKS;
use refusals::Refusal;

// A whole field, and where the next one begins.
#[derive(Clone, Copy)]
pub struct Taken {
    pub field: Field,
    pub next: usize,
}

// Why a field is refused, and its first byte.
#[derive(Clone, Copy)]
pub struct Refused {
    pub refusal: Refusal,
    pub place: usize,
}

// The field whose tag stands at a place, by what has been seen before, or none where nothing is
// left.
pub fn read_field(bytes: &[u8], place: usize, seen: Seen) -> Result<Option<Taken>, Refused>
    ensures { reading result ≡ read_at bytes.now place seen }
{
    if bytes.len() <= place {
        return Ok(None);
    }
    field_there(bytes, place, seen)
        .map(Some)
        .map_err(|refusal| Refused { refusal, place })
}

// The same where a byte is left.
fn field_there(bytes: &[u8], place: usize, seen: Seen) -> Result<Taken, Refusal>
    requires { place < length bytes.now }
    ensures { reading_there place result ≡ read_at bytes.now place seen }
{
    let left = bytes.len() - place;
    let Some(tag) = tag::tag_of(bytes[place]) else {
        return Err(Refusal::Tag);
    };
    if left < 3 {
        return Err(Refusal::Cut);
    }
    let size = usize::from(bytes::word_at(bytes, place + 1));
    if !tag.length_fits(size) {
        return Err(Refusal::Length);
    }
    if left < 3 + size {
        return Err(Refusal::Cut);
    }
    if !seen.is_due(tag) {
        return Err(Refusal::Order);
    }
    let field = field::field_at(bytes, tag, place + 3, size);
    field.in_order(CARD_BLOCKS)?;
    Ok(Taken {
        field,
        next: place + 3 + size,
    })
}
