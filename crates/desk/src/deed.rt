// What a field does: a setup makes the controller anew, a start gives words, a word or a silence
// comes back, a write goes to the memory.
ghost use Rattle.std.specs.Prelude.{◌≡◌};
ghost use Rattle.refusals.specs.Number.{refused};
ghost use Rattle.recording.specs.Value.{valued_at};
ghost use Rattle.controller.specs.State.{desk};
ghost use Rattle.desk.specs.declared.field.Field.TheVariants.{Shared};
ghost use Rattle.desk.specs.declared.deed.Answer.TheVariants.{Ended};
ghost use Rattle.desk.specs.Deed.{done, shared_deed, deed_of};
ghost use Rattle.desk.specs.AsCoded.Held.{answer_in, WordsThere};

use crate::field::Field;
use bus::word;
use controller::start::Given;
use controller::state::{Came, Controller};
use recording;
use refusals::Refusal;

// What comes of a field.
#[derive(Clone, Copy)]
pub enum Answer {
    // a start: the words that it gives
    Gave(Option<Given>),
    // the result where a message ends
    Ended(Option<Came>),
}

// What one of document 01's fields does: the result where it ends a message.
#[tactic(auto, unfolding(crate::specs::Deed::shared_deed, recording::specs::Value::valued_at))]
fn do_shared(
    controller: &mut Controller,
    ram: &mut [u16],
    window: &[u8],
    field: recording::Field,
) -> Option<Came>
    requires { WordsThere window.now (Shared field) }
    ensures { done 0 (Ended result)
        (desk controller.new ram.new)
        ≡ shared_deed (valued_at window.now field)
        (desk controller.old ram.old) }
{
    match field {
        recording::Field::Word { marks, value, time } => {
            controller.hear_word(ram, word::word_of(marks, value, time))
        }
        recording::Field::Silence { line, .. } => controller.hear_silence(ram, line == 1),
        recording::Field::HostWrite {
            address,
            first,
            count,
        } => {
            recording::write_words(window, first, count, ram, address);
            None
        }
        recording::Field::Setup { .. }
        | recording::Field::ReadQueue
        | recording::Field::MoveTable { .. }
        | recording::Field::SetFlags { .. } => None,
    }
}

// What a field does. A start that is refused leaves everything as it was.
#[tactic(auto, unfolding(crate::specs::Deed::deed_of))]
pub(crate) fn do_field(
    controller: &mut Controller,
    ram: &mut [u16],
    window: &[u8],
    field: Field,
) -> Result<Answer, Refusal>
    requires { WordsThere window.now field }
    ensures { done (refused result) (answer_in result)
        (desk controller.new ram.new)
        ≡ deed_of window.now field (desk controller.old ram.old) }
{
    match field {
        Field::Setup { control, count } => {
            *controller = Controller::setup(control, count);
            Ok(Answer::Ended(None))
        }
        Field::Start => Ok(Answer::Gave(controller.begin(ram)?)),
        Field::Shared(shared) => Ok(Answer::Ended(do_shared(controller, ram, window, shared))),
    }
}
