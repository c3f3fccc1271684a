// What a field tells comes about: a setup makes the terminal anew, an event is a step of it.
ghost use Rattle.std.specs.Prelude.{◌≡◌};
ghost use Rattle.terminal.specs.State.{card};
ghost use Rattle.terminal.specs.Event.{shown};
ghost use Rattle.recording.specs.Value.{valued_at};
ghost use Rattle.tray.specs.Happening.{happening_of, happened};
ghost use Rattle.tray.specs.AsCoded.Held.{WordsThere};

use bus::word;
use card::place::Block;
use queue::Queue;
use recording;
use recording::Field;
use terminal::state::{Answer, Core, Reply};

// What a field tells comes about, and what it brings.
pub(crate) fn happen(
    core: &mut Core,
    queue: &mut Queue,
    ram: &mut [u16],
    window: &[u8],
    field: Field,
) -> Answer
    requires { WordsThere window.now field }
    ensures { shown (card core.new queue.new ram.new) result
        ≡ happened (happening_of (valued_at window.now field))
        (card core.old queue.old ram.old) }
{
    match field {
        Field::Setup {
            station,
            table,
            flags,
        } => {
            let number = u16::from(table);
            *core = Core::at_setup(u16::from(station), Block(number), u16::from(flags));
            *queue = Queue::empty();
            Answer::Replied(Reply::Silent)
        }
        Field::Word { marks, value, time } => {
            core.word(queue, ram, word::word_of(marks, value, time));
            Answer::Replied(Reply::Silent)
        }
        Field::Silence { line, time } => {
            Answer::Replied(core.silence(queue, ram, line == 1, time))
        }
        Field::ReadQueue => Answer::QueueWord(queue.read()),
        Field::HostWrite {
            address,
            first,
            count,
        } => {
            recording::write_words(window, first, count, ram, address);
            Answer::Replied(Reply::Silent)
        }
        Field::MoveTable { table } => {
            core.move_table(Block(u16::from(table)));
            Answer::Replied(Reply::Silent)
        }
        Field::SetFlags { flags } => {
            core.set_flags(u16::from(flags));
            Answer::Replied(Reply::Silent)
        }
    }
}
