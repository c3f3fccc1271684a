// Why a call over a window of a recording stops, and the last line that it prints then.
ghost use Rattle.std.specs.Prelude.{◌≡◌};
ghost use Rattle.lines.specs.Page.{on, Leaves, line_on};
ghost use Rattle.pieces.specs.LastLine.{last_line};
ghost use Rattle.pieces.specs.AsCoded.OnPage.{OnPage};
ghost use Rattle.pieces.specs.AsCoded.Window.{is_going, stopped, stopped_at};

use lines::Page;

// Why a call stopped: it has not, it needs more bytes, its buffer is full, or the run is over.
#[derive(Clone, Copy, PartialEq, Eq)]
pub enum Stop {
    Going,
    Hungry,
    Full,
    Over,
}

impl Stop {
    pub fn is_going(self) -> bool
        ensures { result ≡ is_going self }
    {
        self == Stop::Going
    }
}

// END with the fields taken, or the number of the refusal with the offset of its field.
fn put_last(page: &mut Page, number: u8, fields: u64, offset: u64)
    ensures { Leaves page.old page.new
        (line_on page.old (last_line number fields offset)) }
{
    if number == 0 {
        return page.end_line(fields);
    }
    page.refusal_line(number, offset);
}

// No field is taken, by the number of a refusal or 0 for the end of the bytes: more bytes are
// needed or, where these are the last, the last line is printed. The number is any byte, no
// `Refusal`: callers may name what they will.
pub fn stop_at(page: &mut Page, number: u8, last: bool, fields: u64, offset: u64) -> Stop
    ensures { OnPage page.old page.new (stopped (on page.new) result)
        (stopped_at number last fields offset page.old.out.now page.old.at) }
{
    // one value, so that the test is one way of the code
    let hungry = !last & ((number == 0) | (number == 5));
    if hungry {
        return Stop::Hungry;
    }
    put_last(page, number, fields, offset);
    Stop::Over
}
