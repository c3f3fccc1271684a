// What a word or a silence does to an open message: the decision alone, which looks at no memory.
// Counts and fault codes stay numbers: a narrower type would ask more of callers. Station,
// flags and word come apart, and in this order, since the definitions take them so.
ghost use Rattle.std.specs.Prelude.{◌≡◌};
ghost use Rattle.message.specs.Words.{
  own_command,
  asks_for_data,
  drops_broadcast,
  is_second,
  first_command,
  in_data,
  in_second_command,
  in_awaiting_status,
  word_in_stage,
  on_word,
};
ghost use Rattle.message.specs.Silence.{silence_in_stage, on_silence};

use crate::asked::Asked;
use crate::state::{OpenMessage, Stage};
use bus::command;
use bus::word::Word;

#[derive(Clone, Copy)]
pub enum WordAct {
    // nothing
    Ignore,
    // the word is stored; so many are taken then
    Store(u16),
    // the word is checked and not stored; so many are taken then
    Check(u16),
    // the word is the second command
    TakeSecond(u16),
    // the word is the answering status: data follow
    TakeStatus,
    // the message closes with a fault code
    Fault(u16),
    // the message closes with code 7, and the word opens
    Supersede,
    // nothing is left of the message, and the word opens
    Drop,
}

#[derive(Clone, Copy)]
pub enum SilenceAct {
    // nothing
    Ignore,
    // the answering status is due now
    AwaitStatus,
    // the message closes with a fault code
    Fault(u16),
    // the message ends sound
    End,
}

// An own command: sound, command sync, address = station, or 31 with broadcast enabled.
pub fn is_own(station: u16, flags: u16, word: Word) -> bool
    ensures { result ≡ own_command station flags word }
{
    let to_station = command::address(word.value) == station;
    let to_group = command::is_broadcast(word.value) & (flags % 2 == 1);
    word.sound & word.sync & (to_station | to_group)
}

// Direction 1, subaddress 1 to 30.
fn asks_for_data(value: u16) -> bool
    ensures { result ≡ asks_for_data value }
{
    command::is_transmit(value) & !command::is_mode(value)
}

// Rule 6: a broadcast message is dropped by a word to this station alone that asks for data.
fn drops_broadcast(station: u16, command: u16, value: u16) -> bool
    ensures { result ≡ drops_broadcast station command value }
{
    command::is_broadcast(command) & (command::address(value) == station) & asks_for_data(value)
}

// Rule 6: direction 1, address neither own nor 31, subaddress 1 to 30, same count.
pub fn is_second(station: u16, command: u16, value: u16) -> bool
    ensures { result ≡ is_second station command value }
{
    asks_for_data(value)
        & (command::address(value) != station)
        & !command::is_broadcast(value)
        & (command::mode_code(value) == command::mode_code(command))
}

// Rule 6: command sync as first word of a data receive.
fn first_command(station: u16, command: u16, value: u16) -> WordAct
    ensures { result ≡ first_command station command value }
{
    if drops_broadcast(station, command, value) {
        return WordAct::Drop;
    }
    if is_second(station, command, value) {
        return WordAct::TakeSecond(value);
    }
    WordAct::Fault(7)
}

// Rules 1, 3, 5, 6, 7 and 8.
fn in_data(station: u16, asked: Asked, message: OpenMessage, word: Word) -> WordAct
    ensures { result ≡ in_data station asked message word }
{
    if !word.sound {
        return WordAct::Fault(1);
    }
    if !word.joined {
        return WordAct::Fault(3);
    }
    if asked.takes <= message.taken {
        return WordAct::Fault(4);
    }
    if word.sync & asked.receive & (message.taken == 0) & message.second.is_none() {
        return first_command(station, message.command, word.value);
    }
    if word.sync {
        return WordAct::Fault(6);
    }
    if message.busy & asked.yields {
        return WordAct::Check(message.taken + 1);
    }
    WordAct::Store(message.taken + 1)
}

// Rules 1, 3 and 4.
fn in_second_command(word: Word) -> WordAct
    ensures { result ≡ in_second_command word }
{
    if !word.sound {
        return WordAct::Fault(1);
    }
    WordAct::Fault(if word.joined { 7 } else { 3 })
}

// Rules 1 and 2.
fn in_awaiting_status(second: u16, word: Word) -> WordAct
    ensures { result ≡ in_awaiting_status second word }
{
    if !word.sound {
        return WordAct::Fault(1);
    }
    if !word.sync {
        return WordAct::Fault(6);
    }
    if command::address(word.value) == command::address(second) {
        return WordAct::TakeStatus;
    }
    WordAct::Fault(5)
}

fn word_in_stage(
    stage: Stage,
    station: u16,
    asked: Asked,
    message: OpenMessage,
    word: Word,
) -> WordAct
    ensures { result ≡ word_in_stage stage station asked message word }
{
    match stage {
        Stage::Data => in_data(station, asked, message, word),
        Stage::SecondCommand => in_second_command(word),
        Stage::AwaitingStatus => in_awaiting_status(message.second.unwrap_or(0), word),
        Stage::Skipping => WordAct::Ignore,
    }
}

// A word while a message is open.
pub fn on_word(station: u16, flags: u16, asked: Asked, message: OpenMessage, word: Word) -> WordAct
    ensures { result ≡ on_word station flags asked message word }
{
    let elsewhere = word.line != message.line;
    if is_own(station, flags, word) & (elsewhere | !word.joined) {
        return WordAct::Supersede;
    }
    if elsewhere {
        return WordAct::Ignore;
    }
    word_in_stage(message.stage, station, asked, message, word)
}

fn silence_in_stage(stage: Stage, asked: Asked, message: OpenMessage) -> SilenceAct
    ensures { result ≡ silence_in_stage stage asked message }
{
    match stage {
        Stage::Data => {
            if message.taken < asked.takes {
                SilenceAct::Fault(3)
            } else {
                SilenceAct::End
            }
        }
        Stage::SecondCommand => SilenceAct::AwaitStatus,
        Stage::AwaitingStatus => SilenceAct::Fault(2),
        Stage::Skipping => SilenceAct::End,
    }
}

// A silence while a message is open.
pub fn on_silence(asked: Asked, message: OpenMessage, line: bool) -> SilenceAct
    ensures { result ≡ on_silence asked message line }
{
    if line != message.line {
        return SilenceAct::Ignore;
    }
    silence_in_stage(message.stage, asked, message)
}
