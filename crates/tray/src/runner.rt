// A tray run is a runner: what its code makes of what stands at a place of the recording.
use crate::run::Tray;
use crate::{field, print};
use lines::Page;
use pieces::{Runner, Went};
use recording;
use refusals::Refusal;
use rows::Row;

impl Runner for Tray {
    ghost use Rattle.tray.specs.Run.{Tray as TrayOf, tray_course};
    ghost use Rattle.tray.specs.AsCoded.Held.{tray_of};

    ghost Run = { TrayOf };

    ghost course = { tray_course };

    ghost run_of = { tray_of };

    fn fields(&self) -> u64 {
        self.fields
    }

    fn offset(&self) -> u64 {
        self.offset
    }

    // The data words that stand next and that the open message wants: `rows` finds and stores them,
    // word k of a message in cell k, and the terminal goes on behind them.
    fn take_row(
        &mut self,
        ram: &mut [u16],
        window: &[u8],
        at: usize,
        room: usize,
        most: u64,
    ) -> Went {
        let Some(message) = self.core.message else {
            return Went { at, left: most };
        };
        let row = Row {
            block: message.block,
            cell: message.taken,
            end: message.wants(),
        };
        let taken = row.take(ram, window, at, message.line, self.seen.setup, room, most);
        if taken.words == 0 {
            return Went { at, left: most };
        }
        self.core.after_row(message, taken.cell);
        self.pass(u64::from(taken.words), 10 * u64::from(taken.words));
        Went {
            at: taken.at,
            left: taken.left,
        }
    }

    fn take_field(
        &mut self,
        ram: &mut [u16],
        window: &[u8],
        at: usize,
        page: &mut Page,
    ) -> Result<Option<usize>, Refusal> {
        match recording::read_field(window, at, self.seen) {
            Ok(Some(taken)) => {
                let field = taken.field;
                let answer = field::happen(&mut self.core, &mut self.queue, ram, window, field);
                self.seen = self.seen.after(field);
                self.pass(1, (taken.next - at) as u64);
                print::put_answer(page, ram, answer);
                Ok(Some(taken.next))
            }
            Ok(None) => Ok(None),
            Err(refused) => Err(refused.refusal),
        }
    }
}
