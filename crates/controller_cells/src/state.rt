// The lines of the controller's state, an item a line. Every function here puts its text onto the
// page, as much as there is room for.
ghost use Rattle.shown.specs.Text.{Fits};
ghost use Rattle.shown.specs.Item.{part};
ghost use Rattle.controller_cells.specs.State.{
  result_text,
  order_text,
  stage_text,
  progress_text,
  message_text,
  words_text,
  controller_text,
  state_text,
};

use controller::state::{Came, Controller, OpenMessage};
use desk::Run;
use exchange::order::Order;
use exchange::state::{Exchange, Stage};
use lines::Page;
use shown::item::put_item;
use shown::text::{Hex, put_text};

fn put_result(page: &mut Page, res: Option<Came>)
    ensures { Fits page.old (result_text res) page.new }
{
    match res {
        None => put_text(page, b"result none\n"),
        Some(came) => {
            put_item(page, b"result ", &came.code, b' ');
            put_item(page, b"", &came.mark, b'\n');
        }
    }
}

// ---- the open message

// What was asked.
fn put_order(page: &mut Page, order: Order)
    ensures { Fits page.old (order_text order) page.new }
{
    // a row, in the order of the table
    put_item(page, b"open row ", &(order.row as u16), b' ');
    put_item(page, b"group ", &order.broadcast, b' ');
    put_item(page, b"first ", &Hex(order.first), b' ');
    put_item(page, b"second ", &Hex(order.second), b' ');
}

fn put_stage(page: &mut Page, stage: Stage)
    ensures { Fits page.old (part "stage " (stage_text stage)) page.new }
{
    match stage {
        Stage::Awaiting => put_text(page, b"stage awaiting "),
        Stage::Reply => put_text(page, b"stage reply "),
        Stage::AwaitingLast => put_text(page, b"stage last "),
        Stage::Ended => put_text(page, b"stage ended "),
    }
}

// How far the answer has come.
fn put_progress(page: &mut Page, progress: Option<Exchange>)
    ensures { Fits page.old (progress_text progress) page.new }
{
    match progress {
        None => put_text(page, b"stage given taken 0 mark 0\n"),
        Some(exchange) => {
            put_stage(page, exchange.stage);
            put_item(page, b"taken ", &exchange.taken, b' ');
            put_item(page, b"mark ", &exchange.mark, b'\n');
        }
    }
}

fn put_message(page: &mut Page, message: Option<OpenMessage>)
    ensures { Fits page.old (message_text message) page.new }
{
    match message {
        None => put_text(page, b"open none\n"),
        Some(open) => {
            put_order(page, open.order);
            put_progress(page, open.progress);
        }
    }
}

// ---- the controller

// Control word, starts left, and whether its message is due.
fn put_words(page: &mut Page, controller: Controller)
    ensures { Fits page.old (words_text controller) page.new }
{
    put_item(page, b"control ", &Hex(controller.control), b'\n');
    put_item(page, b"count ", &controller.count, b'\n');
    put_item(page, b"due ", &controller.due, b'\n');
}

fn put_controller(page: &mut Page, controller: Controller)
    ensures { Fits page.old (controller_text controller) page.new }
{
    put_words(page, controller);
    put_result(page, controller.result);
    put_message(page, controller.message);
}

// Every item of the state. Before a setup was taken there is no control word.
pub fn put_state(page: &mut Page, run: Run)
    ensures { Fits page.old (state_text run) page.new }
{
    if run.seen.setup {
        return put_controller(page, run.controller);
    }
    put_text(page, b"control none\n");
}
