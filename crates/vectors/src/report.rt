// What the program prints, and the count of cases.
use std::io::Write;
use std::ops::AddAssign;
use std::{fmt, io};

// How many cases were tried, and how many came out as they should.
#[derive(Clone, Copy, Default)]
pub(crate) struct Score {
    right: u64,
    tried: u64,
}

impl AddAssign for Score {
    fn add_assign(&mut self, other: Score) {
        self.right = self.right.wrapping_add(other.right);
        self.tried = self.tried.wrapping_add(other.tried);
    }
}

impl fmt::Display for Score {
    fn fmt<W: fmt::Write>(&self, f: &mut fmt::Formatter<W>) -> fmt::Result {
        write!(f, "{} of {}", self.right, self.tried)
    }
}

impl Score {
    // One case more. One that differs has a line, as `rules 7 differs`: cases are counted from 1
    // within their group.
    pub(crate) fn judge<O: Write>(
        &mut self,
        output: &mut O,
        name: &[u8],
        right: bool,
    ) -> io::Result<()> {
        *self += Score {
            right: right.into(),
            tried: 1,
        };
        if !right {
            output.write_all(name)?;
            writeln!(output, " {} differs", self.tried)?;
        }
        Ok(())
    }

    // The line of a group, as `rules 31 of 31`.
    pub(crate) fn print<O: Write>(&self, output: &mut O, name: &[u8]) -> io::Result<()> {
        output.write_all(name)?;
        writeln!(output, " {self}")
    }
}
