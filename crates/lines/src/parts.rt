// The parts of a line: bytes, hex and decimal digits, on a page that has room for them.
ghost use Rattle.std.specs.Prelude.{◌≡◌, ◌+◌, ◌*◌, ◌≤◌, ◌%◌, length};
ghost use Rattle.lines.specs.Digits.{
  hex_digit,
  hex_byte,
  hex_word,
  decimal_by,
  decimal,
  decimal_places,
};
ghost use Rattle.lines.specs.Lines.{each_word};
ghost use Rattle.lines.specs.Page.{has_room, Wrote};

use crate::{DECIMAL_PLACES, Page};

// The digit of a number's last four bits: `0` to `9`, `A` to `F`.
fn hex_digit(number: u16) -> u8
    ensures { result ≡ hex_digit (number % 16) }
{
    b"0123456789ABCDEF"[number as usize % 16]
}

impl<'a> Page<'a> {
    // Whether so many bytes are left: of a place past the end, none are.
    pub(crate) fn has_room(&self, room: usize) -> bool
        ensures { result ≡ has_room self.now room }
    {
        room <= self.out.len().saturating_sub(self.at)
    }

    // Bytes as they are.
    pub(crate) fn put(&mut self, bytes: &[u8])
        requires { self.old.at + length bytes.now ≤ length self.old.out.now }
        ensures { Wrote (length bytes.now) self.old bytes.now self.new }
    {
        let end = self.at + bytes.len();
        self.out[self.at..end].copy_from_slice(bytes);
        self.at = end;
    }

    // ---- hex

    pub(crate) fn put_hex_byte(&mut self, byte: u8)
        requires { self.old.at + 2 ≤ length self.old.out.now }
        ensures { Wrote 2 self.old (hex_byte byte) self.new }
    {
        let number = u16::from(byte);
        self.put(&[hex_digit(number / 16), hex_digit(number)]);
    }

    pub(crate) fn put_hex_word(&mut self, word: u16)
        requires { self.old.at + 4 ≤ length self.old.out.now }
        ensures { Wrote 4 self.old (hex_word word) self.new }
    {
        self.put(&[
            hex_digit(word / 4096),
            hex_digit(word / 256),
            hex_digit(word / 16),
            hex_digit(word),
        ]);
    }

    // Each word after a blank. A status or a queue word is a row of one: words are written here
    // alone.
    pub(crate) fn put_words(&mut self, words: &[u16])
        requires { self.old.at + 5 * length words.now ≤ length self.old.out.now }
        ensures { Wrote (5 * length words.now) self.old (each_word words.now) self.new }
    {
        for word in words {
            self.put(b" ");
            self.put_hex_word(*word);
        }
    }

    // ---- decimal

    // With so many places at the most: the tens, where there are any, then the last digit. A
    // recursion, as its definition is: a loop would need the digits of its own first.
    fn put_digits(&mut self, number: u64, places: usize)
        requires { self.old.at + places ≤ length self.old.out.now }
        ensures { Wrote places self.old (decimal_by places number) self.new }
    {
        if places == 0 {
            return;
        }
        if number >= 10 {
            self.put_digits(number / 10, places - 1);
        }
        self.put(&[b'0' + (number % 10) as u8]);
    }

    pub(crate) fn put_decimal(&mut self, number: u64)
        requires { self.old.at + decimal_places ≤ length self.old.out.now }
        ensures { Wrote decimal_places self.old (decimal number) self.new }
    {
        self.put_digits(number, DECIMAL_PLACES);
    }
}
