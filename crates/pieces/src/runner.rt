// What a program brings that runs a recording: the course of its run, and code that follows it over
// a memory that is lent.
ghost use Rattle.std.specs.Prelude.{◌≡◌, List, ℕ};
ghost use Rattle.lines.specs.Page.{on};
ghost use Rattle.pieces.specs.Course.{Course};
ghost use Rattle.pieces.specs.AsCoded.OnPage.{OnPage};
ghost use Rattle.pieces.specs.AsCoded.Runner.{field_left, field_run, TurnsTaken};

use lines::Page;
use refusals::Refusal;

// Where fields that were taken at once have led: the place behind them, and how many turns are
// left.
#[derive(Clone, Copy)]
pub struct Went {
    pub at: usize,
    pub left: u64,
}

pub trait Runner {
    // how far a run has come, as the definitions have it
    ghost Run: { Type 0 };

    ghost course: { Course Run };

    // what the code holds of a run, over its memory
    ghost run_of: { Self → List ℕ → Run };

    // How many fields were taken.
    fn fields(&self) -> u64
        ensures { (ram : List ℕ) → result ≡ course.fields (run_of self.now ram) };

    // Where in the recording the next field begins.
    fn offset(&self) -> u64
        ensures { (ram : List ℕ) → result ≡ course.offset (run_of self.now ram) };

    // Takes some of the fields that stand next at once, or none. Each is a turn that prints
    // nothing.
    fn take_row(
        &mut self,
        ram: &mut [u16],
        window: &[u8],
        at: usize,
        room: usize,
        most: u64,
    ) -> Went
        ensures { TurnsTaken course window.now room most (run_of self.old ram.old) at
            result.left (run_of self.new ram.new) result.at };

    // Takes the field at a place, and prints its line. Answers where the next one begins; `None` is
    // the end of the bytes. That and a refusal change nothing.
    fn take_field(
        &mut self,
        ram: &mut [u16],
        window: &[u8],
        at: usize,
        page: &mut Page,
    ) -> Result<Option<usize>, Refusal>
        ensures { OnPage page.old page.new
            (field_left result (run_of self.new ram.new) (on page.new))
            (field_run (course.meets (run_of self.old ram.old) window.now at)
            (run_of self.old ram.old) (on page.old)) };
}
