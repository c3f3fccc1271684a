// Words that a recording holds: a word field that is looked for by its marks, and the words of a
// host write.
ghost use Rattle.std.specs.Prelude.{◌≡◌};
ghost use Rattle.recording.specs.Bytes.{with_written};
ghost use Rattle.recording.specs.AsCoded.Found.{word_found};

use crate::bytes;
use crate::tag::WORD_TAG;
use card::host::MOST_WRITTEN;

// A word field that was looked for: its value, and where the next field begins.
#[derive(Clone, Copy)]
pub struct Found {
    pub value: u16,
    pub next: usize,
}

// Looks for a whole word field with these marks alone. A row of such fields is read faster so.
pub fn find_word(bytes: &[u8], place: usize, marks: u8) -> Option<Found>
    ensures { result ≡ word_found bytes.now place marks }
{
    let [tag, long, short, found, high, low, _, _, _, _, ..] = bytes.get(place..)? else {
        return None;
    };
    // one test of four bytes: `&&`, or the numbers in the pattern, would be four
    let starts = (*tag == WORD_TAG) & (*long == 0) & (*short == 7) & (*found == marks);
    starts.then_some(Found {
        value: bytes::of_bytes(*high, *low),
        next: place + 10,
    })
}

// The words of a field that writes, 64 at the most, go from the bytes to a memory, as far as it
// goes.
pub fn write_words(bytes: &[u8], first: usize, count: usize, ram: &mut [u16], address: u16)
    ensures { ram.new
        ≡ with_written ram.old address bytes.now first count }
{
    if count > MOST_WRITTEN || bytes::bytes_left(bytes, first) < 2 * count {
        return;
    }
    let start = address as usize;
    // what `iter_mut` lends is known to a proof by its length alone
    for word in 0..count {
        if start + word < ram.len() {
            ram[start + word] = bytes::word_at(bytes, first + 2 * word);
        }
    }
}
