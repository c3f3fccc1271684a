// Refusal 4: whether a state is fit, from its parts up: the open message, the core, the terminal.
ghost use Rattle.std.specs.Prelude.{◌≡◌};
ghost use Rattle.message.specs.Fitness.{fit_second, fit_stage, fit_open, fit_message};
ghost use Rattle.terminal.specs.Fitness.{fit_core};
ghost use Rattle.actions.specs.Actions.{fit_terminal};

use crate::Terminal;
use bus::command;
use bus::limits::{ALL_FLAGS, LAST_STATION};
use card::place::CARD_BLOCKS;
use message::judge;
use message::state::{OpenMessage, Stage};
use terminal::state::Core;

// After a second command only data receives, that command as rule 6 takes it.
fn is_fit_second(second: Option<u16>, station: u16, command: u16, receive: bool) -> bool
    ensures { result ≡ fit_second second station command receive }
{
    second.is_none_or(|value| receive & judge::is_second(station, command, value))
}

// A stage that the command can reach.
fn is_fit_stage(stage: Stage, illegal: bool, second: Option<u16>, taken: u16) -> bool
    ensures { result ≡ fit_stage stage illegal second taken }
{
    match stage {
        Stage::Data => !illegal,
        Stage::SecondCommand | Stage::AwaitingStatus => {
            !illegal & second.is_some() & (taken == 0)
        }
        Stage::Skipping => illegal,
    }
}

fn is_fit_open(blocks: u16, station: u16, message: OpenMessage) -> bool
    ensures { result ≡ fit_open blocks station message }
{
    let address = command::address(message.command);
    let asked = message.asks();
    ((address == station) | command::is_broadcast(message.command))
        & (message.block.0 < blocks)
        & (message.table.0 < blocks)
        & (message.taken <= asked.takes)
        & is_fit_second(message.second, station, message.command, asked.receive)
        & is_fit_stage(message.stage, asked.illegal, message.second, message.taken)
}

// On a card of so many blocks.
fn is_fit_message(blocks: u16, message: Option<OpenMessage>, station: u16) -> bool
    ensures { result ≡ fit_message blocks message station }
{
    message.is_none_or(|held| is_fit_open(blocks, station, held))
}

// Station, table and flags as setup takes them, and the open message, on a card of so many blocks.
fn is_fit_core(blocks: u16, core: &Core) -> bool
    ensures { result ≡ fit_core blocks core.now }
{
    (core.station <= LAST_STATION)
        & (core.table.0 < blocks)
        & (core.flags <= ALL_FLAGS)
        & is_fit_message(blocks, core.message, core.station)
}

impl Terminal {
    // Whether every part is as document 01's refusal 4 asks, all 256 queue places included.
    pub fn is_fit(&self) -> bool
        ensures { result ≡ fit_terminal self.now }
    {
        is_fit_core(CARD_BLOCKS, &self.core) & self.queue.is_fit(CARD_BLOCKS)
    }
}
