// The reader: what stands at a place of a controller's recording, a field or a refusal.
ghost use Rattle.std.specs.Prelude.{◌≡◌, ◌<◌, ◌≤◌, length};
ghost use Rattle.refusals.specs.Number.{refused};
ghost use Rattle.recording.specs.Reading as recording;
ghost use Rattle.desk.specs.Reading.{own_refusal, is_shared, shared_as, reading, read_at};

use crate::field::Field;
use recording;
use recording::Seen;
use refusals::Refusal;

// A whole field, and where the next one begins.
#[derive(Clone, Copy)]
pub struct Taken {
    pub field: Field,
    pub next: usize,
}

// The controller's own tags.
const SETUP_TAG: u8 = 10;

const START_TAG: u8 = 11;

// Whether a tag is one of document 01's that a controller's recording has: word, silence, write.
fn is_shared(tag: u8) -> bool
    ensures { result ≡ is_shared tag }
{
    matches!(tag, 2 | 3 | 5)
}

// One of document 01's fields, as it is read there.
fn read_shared(bytes: &[u8], place: usize, seen: Seen) -> Result<Option<Taken>, Refusal>
    ensures { reading result ≡ shared_as (recording.read_at bytes.now place seen) }
{
    let taken = recording::read_field(bytes, place, seen).map_err(|refused| refused.refusal)?;
    Ok(taken.map(|taken| Taken {
        field: Field::Shared(taken.field),
        next: taken.next,
    }))
}

// Whether a field of the controller's own stands whole at a place and comes in order, by the
// refusals 5, 7, 5, 9. Document 01's reader has the same tests, for tags of many lengths and behind
// a test of the tag; with one for both, either would say less of what it refuses.
fn own_stands(bytes: &[u8], place: usize, size: usize, due: bool) -> Result<(), Refusal>
    requires { (place < length bytes.now) × (size ≤ 4) }
    ensures { refused result ≡ own_refusal bytes.now place size due }
{
    let left = bytes.len() - place;
    if left < 3 {
        return Err(Refusal::Cut);
    }
    let told = recording::of_bytes(bytes[place + 1], bytes[place + 2]) as usize;
    if told != size {
        return Err(Refusal::Length);
    }
    if left < 3 + size {
        return Err(Refusal::Cut);
    }
    if !due {
        return Err(Refusal::Order);
    }
    Ok(())
}

// The field whose tag stands at a place, by what has been seen before, or none where nothing is
// left.
pub fn read_field(bytes: &[u8], place: usize, seen: Seen) -> Result<Option<Taken>, Refusal>
    ensures { reading result ≡ read_at bytes.now place seen }
{
    if bytes.len() <= place {
        return Ok(None);
    }
    match bytes[place] {
        SETUP_TAG => {
            own_stands(bytes, place, 4, !seen.setup)?;
            Ok(Some(Taken {
                field: Field::Setup {
                    control: recording::of_bytes(bytes[place + 3], bytes[place + 4]),
                    count: recording::of_bytes(bytes[place + 5], bytes[place + 6]),
                },
                next: place + 7,
            }))
        }
        START_TAG => {
            own_stands(bytes, place, 0, seen.setup)?;
            Ok(Some(Taken {
                field: Field::Start,
                next: place + 3,
            }))
        }
        tag if is_shared(tag) => read_shared(bytes, place, seen),
        _ => Err(Refusal::Tag),
    }
}
