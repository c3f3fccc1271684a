// Why something is refused: what cannot be used is told by a number of document 01 or 02, and left
// as it was.
#![tactic(auto)]

ghost use Rattle.std.specs.Prelude.{◌≡◌};
ghost use Rattle.refusals.specs.Number.{number_of};

// The refusals, each with its number.
#[derive(Clone, Copy, PartialEq, Eq)]
pub enum Refusal {
    // a memory of another length
    Memory = 1,
    // a station above 30
    Station = 2,
    // a table block above 255
    TableBlock = 3,
    // a state that is not fit
    State = 4,
    // the input ends inside a field
    Cut = 5,
    // an unknown tag
    Tag = 6,
    // a length that is not the tag's
    Length = 7,
    // spare bits set, a line above 1, a part or a write out of bounds
    Value = 8,
    // a setup not first, or again
    Order = 9,
    // a lent buffer that is too short
    Room = 10,
    // a format code that the table lacks
    Format = 14,
}

impl From<Refusal> for u8 {
    ghost from_gives = { λ refusal number. number ≡ number_of refusal };

    fn from(refusal: Refusal) -> u8 {
        refusal as u8
    }
}
