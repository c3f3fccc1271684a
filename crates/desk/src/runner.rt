// A controller's run is a runner: what its code makes of what stands at a place of the recording.
use crate::run::Run;
use crate::{deed, print, reading};
use lines::Page;
use pieces::{Runner, Went};
use refusals::Refusal;
use rows::Row;

impl Runner for Run {
    ghost use Rattle.desk.specs.Run.{Run as RunOf, desk_course};
    ghost use Rattle.desk.specs.AsCoded.Held.{run_of as desk_run_of};

    ghost Run = { RunOf };

    ghost course = { desk_course };

    ghost run_of = { desk_run_of };

    fn fields(&self) -> u64 {
        self.fields
    }

    fn offset(&self) -> u64 {
        self.offset
    }

    // The data words that stand next and are wanted: `rows` finds and stores them, and the
    // controller goes on behind them.
    fn take_row(
        &mut self,
        ram: &mut [u16],
        window: &[u8],
        at: usize,
        room: usize,
        most: u64,
    ) -> Went {
        let Some(wanted) = self.controller.words_wanted() else {
            return Went { at, left: most };
        };
        let row = Row {
            block: wanted.block,
            cell: wanted.cell,
            end: wanted.end,
        };
        let taken = row.take(ram, window, at, wanted.line, self.seen.setup, room, most);
        if taken.words == 0 {
            return Went { at, left: most };
        }
        self.controller.set_taken(wanted.taken + taken.words);
        self.pass(u64::from(taken.words), 10 * u64::from(taken.words));
        Went {
            at: taken.at,
            left: taken.left,
        }
    }

    fn take_field(
        &mut self,
        ram: &mut [u16],
        window: &[u8],
        at: usize,
        page: &mut Page,
    ) -> Result<Option<usize>, Refusal> {
        let Some(taken) = reading::read_field(window, at, self.seen)? else {
            return Ok(None);
        };
        let answer = deed::do_field(&mut self.controller, ram, window, taken.field)?;
        self.seen = taken.field.seen_after(self.seen);
        self.pass(1, (taken.next - at) as u64);
        print::put_answer(page, ram, answer);
        Ok(Some(taken.next))
    }
}
