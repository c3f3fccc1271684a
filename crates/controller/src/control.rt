// The control word: bits 13 to 6 block, 5 line, 4 go on, 3 to 0 format code; 15 and 14 are not
// looked at. They read a number, since the word is a public field of the controller's state.
ghost use Rattle.std.specs.Prelude.{◌≡◌};
ghost use Rattle.controller.specs.Control.{block_in, line_in, goes_on, code_in};

use card::place::Block;

pub(crate) fn block(control: u16) -> Block
    ensures { result ≡ block_in control }
{
    Block(control / 64 % 256)
}

// Line B.
pub(crate) fn line(control: u16) -> bool
    ensures { result ≡ line_in control }
{
    control / 32 % 2 == 1
}

pub(crate) fn goes_on(control: u16) -> bool
    ensures { result ≡ goes_on control }
{
    control / 16 % 2 == 1
}

pub(crate) fn code(control: u16) -> u16
    ensures { result ≡ code_in control }
{
    control % 16
}
