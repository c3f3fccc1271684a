// Closing a message: by a fault, or by its sound end. A message goes beside what it asks, which is
// told once, as the definitions of closing take both. A fault code stays a number: a narrower type
// would ask more of callers.
ghost use Rattle.std.specs.Prelude.{◌≡◌, cond, true, false, eqb};
ghost use Rattle.terminal.specs.State.{card};
ghost use Rattle.terminal.specs.Closing.{
  unless_busy,
  state_of,
  closed_ram,
  closed_queue,
  faulted,
  replies,
  reply_of,
  switched_shut,
  switched_inhibit,
  switched,
  end_words,
  ended,
};

use crate::state::{Core, Reply, Shut};
use bus::{command, status};
use card::state::State;
use card::{memory, time};
use message::asked::Asked;
use message::state::OpenMessage;
use queue::Queue;

// Words stored or sent: none where they are kept back.
fn unless_busy(asked: Asked, message: OpenMessage, words: u16) -> u16
    ensures { result ≡ unless_busy asked message words }
{
    if message.busy & asked.yields {
        0
    } else {
        words
    }
}

// The state word of cell 58. Code 0 is no fault.
fn state_of(code: u16, words: u16, message: OpenMessage) -> u16
    ensures { result ≡ state_of code words message }
{
    let broadcast = command::is_broadcast(message.command);
    State {
        line: message.line,
        fault: code != 0,
        broadcast,
        second: message.second.is_some(),
        busy: message.busy,
        code,
        words,
    }
    .word()
}

// Cells 58 to 61, then cell 63 into the opening's table cell unless the host has set the table
// block since.
fn close_ram(ram: &mut [u16], asked: Asked, state: u16, time: u32, message: OpenMessage)
    ensures { ram.new ≡ closed_ram asked state time message ram.old }
{
    if !asked.block {
        return;
    }
    let ticks = time::ticks(message.opened, time);
    memory::write_service(ram, message.block, state, time, ticks);
    if message.moved {
        return;
    }
    memory::write_link(ram, message.block, message.table, asked.cell);
}

// If wanted, the block number joins the queue.
fn close_queue(queue: &mut Queue, asked: Asked, message: OpenMessage)
    ensures { queue.new ≡ closed_queue asked message queue.old }
{
    if asked.block & message.queued {
        queue.join(message.block.0);
    }
}

impl Core {
    // A reply is given unless the message was broadcast or its line is shut.
    fn replies(&self, message: OpenMessage) -> bool
        ensures { result ≡ replies self.now message }
    {
        !command::is_broadcast(message.command) & !is_shut(self.shut, message.line)
    }

    // The sound end's reply: status, then words sent.
    pub fn reply(&self, asked: Asked, message: OpenMessage) -> Reply
        ensures { result ≡ reply_of asked self.now message }
    {
        if !self.replies(message) {
            return Reply::Silent;
        }
        if asked.last {
            return Reply::Last {
                status: self.status,
                command: self.last,
            };
        }
        if unless_busy(asked, message, asked.sends) == 0 {
            return Reply::Status(self.status);
        }
        Reply::Words {
            status: self.status,
            block: message.block,
            count: asked.sends,
        }
    }

    // What codes 4 to 8 do to shut lines and inhibit.
    fn switch(&mut self, code: u16, line: bool)
        ensures { self.new ≡ switched code line self.old }
    {
        self.shut = switched_shut(code, line, self.shut);
        self.inhibit = switched_inhibit(code, self.inhibit);
    }

    // The data words stored, or held by the reply given.
    fn end_words(&self, asked: Asked, message: OpenMessage) -> u16
        ensures { result ≡ end_words asked self.now message }
    {
        let moved = moved_words(asked, self.replies(message), message.taken);
        unless_busy(asked, message, moved)
    }

    // A fault closes the open message silently and sets message error.
    pub fn close_by_fault(
        &mut self,
        code: u16,
        queue: &mut Queue,
        ram: &mut [u16],
        asked: Asked,
        time: u32,
        message: OpenMessage,
    )
        ensures { card self.new queue.new ram.new
            ≡ faulted asked code time message (card self.old queue.old ram.old) }
    {
        let words = unless_busy(asked, message, message.taken);
        let state = state_of(code, words, message);
        close_ram(ram, asked, state, time, message);
        close_queue(queue, asked, message);
        self.status = status::with_error(self.status);
        self.message = None;
    }

    // The sound end closes the open message; codes 4 to 8 act.
    pub fn close_at_end(
        &mut self,
        queue: &mut Queue,
        ram: &mut [u16],
        asked: Asked,
        time: u32,
        message: OpenMessage,
    )
        ensures { card self.new queue.new ram.new
            ≡ ended asked time message (card self.old queue.old ram.old) }
    {
        let words = self.end_words(asked, message);
        let state = state_of(0, words, message);
        close_ram(ram, asked, state, time, message);
        close_queue(queue, asked, message);
        self.switch(asked.switch, message.line);
        self.message = None;
    }
}

fn is_shut(shut: Shut, line: bool) -> bool
    ensures { result ≡ cond line shut.b shut.a }
{
    if line { shut.b } else { shut.a }
}

// What takes words has stored them; what sends has sent them where a reply was given.
fn moved_words(asked: Asked, given: bool, taken: u16) -> u16
    ensures { result
        ≡ cond (eqb asked.takes 0) (cond given asked.sends 0) taken }
{
    if asked.takes != 0 {
        return taken;
    }
    if given { asked.sends } else { 0 }
}

// 4 shuts and 5 opens the other line; 8 opens both.
fn switched_line(opens: bool, shuts: bool, shut: bool) -> bool
    ensures { result ≡ cond opens false (cond shuts true shut) }
{
    !opens & (shuts | shut)
}

fn switched_shut(code: u16, line: bool, shut: Shut) -> Shut
    ensures { result ≡ switched_shut code line shut }
{
    Shut {
        a: switched_line(
            (code == 8) | ((code == 5) & line),
            (code == 4) & line,
            shut.a,
        ),
        b: switched_line(
            (code == 8) | ((code == 5) & !line),
            (code == 4) & !line,
            shut.b,
        ),
    }
}

// 6 sets and 7 clears inhibit; 8 clears it too.
fn switched_inhibit(code: u16, inhibit: bool) -> bool
    ensures { result ≡ switched_inhibit code inhibit }
{
    switched_line((code == 8) | (code == 7), code == 6, inhibit)
}
