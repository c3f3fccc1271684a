// The lines that a run prints, on the page that it is lent.
ghost use Rattle.std.specs.Prelude.{◌≡◌};
ghost use Rattle.lines.specs.Page.{Leaves, line_on};
ghost use Rattle.desk.specs.Deed.{given_text, result_text, answer_line};

use crate::deed::Answer;
use controller::given;
use controller::start::Given;
use controller::state::Came;
use lines::Page;

fn put_given(page: &mut Page, ram: &[u16], words: Option<Given>)
    ensures { Leaves page.old page.new (line_on page.old (given_text ram.now words)) }
{
    match words {
        None => {}
        Some(words) => page.given_line(given::part(ram, words.block, words.count)),
    }
}

fn put_result(page: &mut Page, res: Option<Came>)
    ensures { Leaves page.old page.new (line_on page.old (result_text res)) }
{
    match res {
        None => {}
        Some(came) => page.result_line(came.code, came.mark),
    }
}

pub(crate) fn put_answer(page: &mut Page, ram: &[u16], answer: Answer)
    ensures { Leaves page.old page.new (line_on page.old (answer_line ram.now answer)) }
{
    match answer {
        Answer::Gave(given) => put_given(page, ram, given),
        Answer::Ended(result) => put_result(page, result),
    }
}
