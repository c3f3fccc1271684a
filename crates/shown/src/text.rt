// Texts onto a page: as many bytes as there is room for. The place goes on with them, so texts are
// put one behind the other with no thought of room.
ghost use Rattle.std.specs.Prelude.{List, ℕ};
ghost use Rattle.lines.specs.Digits.{hex_byte, hex_word, decimal};
ghost use Rattle.shown.specs.Text.{Fits};
ghost use Rattle.shown.specs.Item.{mark_text};

use bits;
use lines::{DECIMAL_PLACES, Page};

// Bytes as they are.
pub fn put_text(page: &mut Page, text: &[u8])
    ensures { Fits page.old text.now page.new }
{
    let room = page.out.len().saturating_sub(page.at);
    page.text(&text[..text.len().min(room)]);
}

// A value that has a text.
pub trait Shown {
    ghost text_of: { Self → List ℕ };

    fn put(&self, page: &mut Page)
        ensures { Fits page.old (text_of self.now) page.new };
}

// A number in hex: two digits of a byte, four of a word, capitals.
#[derive(Clone, Copy)]
pub struct Hex<T>(pub T);

// Digits are put on a page of their own first. The three that do so differ in what they put and in
// the room for it: one for all would take both, and be no shorter.

// A decimal number with no leading zeros.
impl Shown for u16 {
    ghost text_of = { λ number. decimal number };

    fn put(&self, page: &mut Page) {
        let mut digits: [u8; DECIMAL_PLACES] = [0; DECIMAL_PLACES];
        let mut own = Page {
            out: &mut digits,
            at: 0,
        };
        own.decimal(*self as u64);
        put_text(page, own.written());
    }
}

// A mark is 0 or 1.
impl Shown for bool {
    ghost text_of = { λ mark. mark_text mark };

    fn put(&self, page: &mut Page) {
        bits::weigh(*self, 1).put(page);
    }
}

impl Shown for Hex<u8> {
    ghost text_of = { λ byte. hex_byte byte.0 };

    fn put(&self, page: &mut Page) {
        let mut digits: [u8; 2] = [0; 2];
        let mut own = Page {
            out: &mut digits,
            at: 0,
        };
        own.hex_byte(self.0);
        put_text(page, own.written());
    }
}

impl Shown for Hex<u16> {
    ghost text_of = { λ word. hex_word word.0 };

    fn put(&self, page: &mut Page) {
        let mut digits: [u8; 4] = [0; 4];
        let mut own = Page {
            out: &mut digits,
            at: 0,
        };
        own.hex_word(self.0);
        put_text(page, own.written());
    }
}
