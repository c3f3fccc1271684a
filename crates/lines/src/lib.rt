// The lines that runs print, each written on a page: a lent buffer, and the place in it where the
// next byte goes. Where the room from that place on is short, a public function writes nothing and
// the place stays. `parts` has the parts of a line: each is given the room that it needs, and its
// contract bounds the next place, by which a caller sees that the room is enough for the parts that
// follow.
#![tactic(auto)]

ghost use Rattle.std.specs.Prelude.{◌≡◌, length, take};
ghost use Rattle.lines.specs.Digits.{hex_byte, hex_word, decimal, decimal_places};
ghost use Rattle.lines.specs.Lines.{
  queue_line,
  end_line,
  numbers_line,
  refusal_line,
  result_line,
};
ghost use Rattle.lines.specs.Page.{Leaves, line_on, written_on};
ghost use Rattle.lines.specs.Written.{status_written, given_written};

mod parts;

// The room that each line is given. The longest, a status and 32 words, has 167 bytes.
pub const LINE_ROOM: usize = 168;

// The words that a message sends at the most.
pub const MOST_WORDS: usize = 32;

// The words that a message gives at the most: a command and those.
pub const MOST_GIVEN: usize = 33;

// The digits of a number of 64 bits at the most.
pub const DECIMAL_PLACES: usize = 20;

// A lent buffer, and the place where the next byte goes.
#[derive(Drop)]
pub struct Page<'a> {
    pub out: &'a mut [u8],
    pub at: usize,
}

impl<'a> Page<'a> {
    // What is written so far: the bytes before the place, or all where it lies past the end.
    pub fn written(&self) -> &[u8]
        ensures { result.now ≡ take self.now.at self.now.out.now }
    {
        let end = self.at.min(self.out.len());
        &self.out[..end]
    }
}

// ---- the lines of a tray run

impl<'a> Page<'a> {
    // `S`: status and words sent, parted by single blanks. Of more than 32 words nothing is
    // written.
    pub fn status_line(&mut self, status: u16, words: &[u16])
        ensures { Leaves self.old self.new
            (status_written self.old.out.now self.old.at status words.now) }
    {
        if words.len() > MOST_WORDS || !self.has_room(LINE_ROOM) {
            return;
        }
        self.put(b"S");
        self.put_words(&[status]);
        self.put_words(words);
        self.put(&[b'\n']);
    }

    // `Q`: a queue read.
    pub fn queue_line(&mut self, word: u16)
        ensures { Leaves self.old self.new (line_on self.old (queue_line word)) }
    {
        if !self.has_room(LINE_ROOM) {
            return;
        }
        self.put(b"Q");
        self.put_words(&[word]);
        self.put(b"\n");
    }

    // `END`: fields taken, decimal.
    pub fn end_line(&mut self, fields: u64)
        ensures { Leaves self.old self.new (line_on self.old (end_line fields)) }
    {
        if !self.has_room(LINE_ROOM) {
            return;
        }
        self.put(b"END ");
        self.put_decimal(fields);
        self.put(b"\n");
    }

    // `!`: a refusal's number and the offset of its field's first byte, decimal. The number is any
    // byte, no `Refusal`: callers may name what they will.
    pub fn refusal_line(&mut self, number: u8, offset: u64)
        ensures { Leaves self.old self.new (line_on self.old (refusal_line number offset)) }
    {
        self.numbers_line(b'!', u64::from(number), offset);
    }
}

// ---- those of a controller's run

impl<'a> Page<'a> {
    // `G`: the words given, a blank before each. Of more than 33 words nothing is written.
    pub fn given_line(&mut self, words: &[u16])
        ensures { Leaves self.old self.new
            (given_written self.old.out.now self.old.at words.now) }
    {
        if words.len() > MOST_GIVEN || !self.has_room(LINE_ROOM) {
            return;
        }
        self.put(b"G");
        self.put_words(words);
        self.put(b"\n");
    }

    // `R`: the code of a result, which is any word, and its mark, 0 or 1.
    pub fn result_line(&mut self, code: u16, mark: bool)
        ensures { Leaves self.old self.new (line_on self.old (result_line code mark)) }
    {
        self.numbers_line(b'R', u64::from(code), u64::from(mark));
    }
}

// ---- what else a program prints: no newline of its own

impl<'a> Page<'a> {
    // Bytes as they are.
    pub fn text(&mut self, bytes: &[u8])
        ensures { Leaves self.old self.new
            (written_on (length bytes.now) self.old bytes.now) }
    {
        // the place may lie past the end, where the room for no bytes is
        if !bytes.is_empty() && self.has_room(bytes.len()) {
            self.put(bytes);
        }
    }

    // Two hex digits, capitals.
    pub fn hex_byte(&mut self, byte: u8)
        ensures { Leaves self.old self.new (written_on 2 self.old (hex_byte byte)) }
    {
        if self.has_room(2) {
            self.put_hex_byte(byte);
        }
    }

    // Four hex digits, capitals.
    pub fn hex_word(&mut self, word: u16)
        ensures { Leaves self.old self.new (written_on 4 self.old (hex_word word)) }
    {
        if self.has_room(4) {
            self.put_hex_word(word);
        }
    }

    // A decimal number with no leading zeros. It is given room for twenty digits, however few it
    // has.
    pub fn decimal(&mut self, number: u64)
        ensures { Leaves self.old self.new
            (written_on decimal_places self.old (decimal number)) }
    {
        if self.has_room(DECIMAL_PLACES) {
            self.put_decimal(number);
        }
    }

    // Two numbers behind a letter, decimal.
    fn numbers_line(&mut self, letter: u8, one: u64, other: u64)
        ensures { Leaves self.old self.new (line_on self.old (numbers_line letter one other)) }
    {
        if !self.has_room(LINE_ROOM) {
            return;
        }
        self.put(&[letter, b' ']);
        self.put_decimal(one);
        self.put(b" ");
        self.put_decimal(other);
        self.put(b"\n");
    }
}
