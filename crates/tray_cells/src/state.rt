// The lines of the terminal's state, an item a line. Every function here puts its text onto the
// page, as much as there is room for.
ghost use Rattle.shown.specs.Text.{Fits};
ghost use Rattle.shown.specs.Item.{part, line};
ghost use Rattle.tray_cells.specs.State.{
  time_text,
  line_name,
  second_text,
  stage_text,
  opening_text,
  fixed_text,
  progress_text,
  message_text,
  blocks_from,
  each_block,
  waiting_text,
  queue_text,
  words_text,
  remembered_text,
  switches_text,
  core_text,
  terminal_text,
  state_text,
};

use lines::Page;
use message::state::{OpenMessage, Stage};
use queue::Queue;
use shown::item::put_item;
use shown::text::{Hex, Shown, put_text};
use terminal::state::Core;
use tray::Tray;

// ---- the open message

fn put_line(page: &mut Page, line: bool)
    ensures { Fits page.old (part "line " (line_name line)) page.new }
{
    if line {
        return put_text(page, b"line B ");
    }
    put_text(page, b"line A ");
}

// A time has 32 bits.
fn put_opened(page: &mut Page, opened: u32)
    ensures { Fits page.old (part "opened " (time_text opened)) page.new }
{
    put_text(page, b"opened ");
    Hex((opened / 65536 % 65536) as u16).put(page);
    Hex((opened % 65536) as u16).put(page);
    put_text(page, b" ");
}

fn put_second(page: &mut Page, second: Option<u16>)
    ensures { Fits page.old (part "second " (second_text second)) page.new }
{
    match second {
        None => put_text(page, b"second none "),
        Some(command) => put_item(page, b"second ", &Hex(command), b' '),
    }
}

fn put_stage(page: &mut Page, stage: Stage)
    ensures { Fits page.old (line "stage " (stage_text stage)) page.new }
{
    match stage {
        Stage::Data => put_text(page, b"stage data\n"),
        Stage::SecondCommand => put_text(page, b"stage second\n"),
        Stage::AwaitingStatus => put_text(page, b"stage awaiting\n"),
        Stage::Skipping => put_text(page, b"stage skipping\n"),
    }
}

// Command, line and block.
fn put_opening(page: &mut Page, message: OpenMessage)
    ensures { Fits page.old (opening_text message) page.new }
{
    put_item(page, b"open ", &Hex(message.command), b' ');
    put_line(page, message.line);
    put_item(page, b"block ", &message.block.0, b' ');
}

// The table block, and what was fixed with it.
fn put_fixed(page: &mut Page, message: OpenMessage)
    ensures { Fits page.old (fixed_text message) page.new }
{
    put_item(page, b"table ", &message.table.0, b' ');
    put_item(page, b"moved ", &message.moved, b' ');
    put_item(page, b"busy ", &message.busy, b' ');
    put_item(page, b"queued ", &message.queued, b' ');
}

// How far the message has come.
fn put_progress(page: &mut Page, message: OpenMessage)
    ensures { Fits page.old (progress_text message) page.new }
{
    put_opened(page, message.opened);
    put_item(page, b"taken ", &message.taken, b' ');
    put_second(page, message.second);
    put_stage(page, message.stage);
}

fn put_message(page: &mut Page, message: Option<OpenMessage>)
    ensures { Fits page.old (message_text message) page.new }
{
    match message {
        None => put_text(page, b"open none\n"),
        Some(open) => {
            put_opening(page, open);
            put_fixed(page, open);
            put_progress(page, open);
        }
    }
}

// ---- the queue

// The blocks that wait, oldest first.
fn put_blocks(page: &mut Page, queue: &Queue)
    ensures { Fits page.old
        (each_block (blocks_from queue.now.places queue.now.ring.start queue.now.ring.count))
        page.new }
{
    for index in 0..queue.ring.count {
        let place = (queue.ring.start as usize + index as usize) % 256;
        put_text(page, b" ");
        queue.places[place].put(page);
    }
}

fn put_waiting(page: &mut Page, queue: &Queue)
    ensures { Fits page.old (waiting_text queue.now.places queue.now.ring) page.new }
{
    if queue.ring.count == 0 {
        return put_text(page, b"waiting none\n");
    }
    put_text(page, b"waiting");
    put_blocks(page, queue);
    put_text(page, b"\n");
}

fn put_queue(page: &mut Page, queue: &Queue)
    ensures { Fits page.old (queue_text queue.now) page.new }
{
    put_item(page, b"overflow ", &queue.ring.overflow, b'\n');
    put_waiting(page, queue);
}

// ---- the terminal

// What setup and the host have set.
fn put_words(page: &mut Page, core: Core)
    ensures { Fits page.old (words_text core) page.new }
{
    put_item(page, b"station ", &core.station, b'\n');
    put_item(page, b"table ", &core.table.0, b'\n');
    put_item(page, b"flags ", &Hex((core.flags % 256) as u8), b'\n');
}

// Remembered status and last command.
fn put_remembered(page: &mut Page, core: Core)
    ensures { Fits page.old (remembered_text core) page.new }
{
    put_item(page, b"status ", &Hex(core.status), b'\n');
    put_item(page, b"last ", &Hex(core.last), b'\n');
}

// What mode commands have switched.
fn put_switches(page: &mut Page, core: Core)
    ensures { Fits page.old (switches_text core) page.new }
{
    put_item(page, b"shut A ", &core.shut.a, b'\n');
    put_item(page, b"shut B ", &core.shut.b, b'\n');
    put_item(page, b"inhibit ", &core.inhibit, b'\n');
}

fn put_core(page: &mut Page, core: Core)
    ensures { Fits page.old (core_text core) page.new }
{
    put_words(page, core);
    put_remembered(page, core);
    put_switches(page, core);
}

fn put_terminal(page: &mut Page, core: Core, queue: &Queue)
    ensures { Fits page.old (terminal_text core queue.now) page.new }
{
    put_core(page, core);
    put_queue(page, queue);
    put_message(page, core.message);
}

// Every item of the state. Before a setup was taken there is no terminal.
pub fn put_state(page: &mut Page, tray: &Tray)
    ensures { Fits page.old (state_text tray.now) page.new }
{
    if tray.seen.setup {
        return put_terminal(page, tray.core, &tray.queue);
    }
    put_text(page, b"terminal none\n");
}
