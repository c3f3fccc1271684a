// The lines that a run prints, on the page that it is lent.
ghost use Rattle.std.specs.Prelude.{◌≡◌};
ghost use Rattle.lines.specs.Page.{Leaves, line_on};
ghost use Rattle.tray.specs.Run.{reply_line, answer_line};

use card::place::CARD_BLOCKS;
use card::sent;
use lines::Page;
use terminal::state::{Answer, Reply};

// The line of a reply: nothing of silence; else its status and the words sent, which stand in the
// RAM.
fn put_reply(page: &mut Page, ram: &[u16], reply: Reply)
    ensures { Leaves page.old page.new (line_on page.old (reply_line ram.now reply)) }
{
    match reply {
        Reply::Silent => {}
        Reply::Status(status) => page.status_line(status, &[]),
        Reply::Words {
            status,
            block,
            count,
        } => page.status_line(status, sent::part(ram, CARD_BLOCKS, block, count)),
        Reply::Last { status, command } => page.status_line(status, &[command]),
    }
}

pub(crate) fn put_answer(page: &mut Page, ram: &[u16], answer: Answer)
    ensures { Leaves page.old page.new (line_on page.old (answer_line ram.now answer)) }
{
    match answer {
        Answer::Replied(reply) => put_reply(page, ram, reply),
        Answer::QueueWord(word) => page.queue_line(word),
    }
}
