// What a command asks for. The rest of the terminal goes by this one classification.
ghost use Rattle.std.specs.Prelude.{◌≡◌};
ghost use Rattle.bus.specs.Kind.{kind_of, legal_mode_of, mode_kind_of};

use crate::mode::{Mode, ModeWord};
use crate::{command, mode};

#[derive(Clone, Copy, PartialEq, Eq)]
pub enum Kind {
    // data words for this station
    Receive,
    // data words from this station
    Transmit,
    // code 2: sends the remembered status
    ModeStatus,
    // code 18: sends the last command
    ModeLast,
    // codes 4 to 7: shut and open the other line, set and clear inhibit
    ModeSwitch,
    // codes 16 and 19: send one word from a block
    ModeSend,
    // codes 17, 20 and 21: take one word into a block
    ModeTake,
    // codes 0, 1, 3 and 8: a reply alone
    ModeReply,
    Illegal,
}

// What a legal mode command asks for, by its data word and its code.
fn mode_kind(word: ModeWord, code: u16) -> Kind
    ensures { result ≡ mode_kind_of word code }
{
    match (word, code) {
        (ModeWord::Without, 2) => Kind::ModeStatus,
        (ModeWord::Without, 4..=7) => Kind::ModeSwitch,
        (ModeWord::Without, _) => Kind::ModeReply,
        (ModeWord::Sent, 18) => Kind::ModeLast,
        (ModeWord::Sent, _) => Kind::ModeSend,
        (ModeWord::Taken, _) => Kind::ModeTake,
    }
}

// Whether a mode command is as its row of the table wants it.
fn is_legal_mode(row: Mode, command: u16) -> bool
    ensures { result ≡ legal_mode_of row command }
{
    command::is_transmit(command) == row.transmit
        && (row.broadcast || !command::is_broadcast(command))
}

// What a command asks for.
#[tactic(auto, unfolding(crate::specs::Kind::kind_of))]
pub fn kind_of(command: u16) -> Kind
    ensures { result ≡ kind_of command }
{
    if command::is_mode(command) {
        let code = command::mode_code(command);
        match mode::mode_of(code) {
            Some(row) if is_legal_mode(row, command) => mode_kind(row.word, code),
            _ => Kind::Illegal,
        }
    } else if !command::is_transmit(command) {
        Kind::Receive
    } else if command::is_broadcast(command) {
        Kind::Illegal
    } else {
        Kind::Transmit
    }
}
