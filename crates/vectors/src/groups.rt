// The walk of the cases: group by group, and case by case within a group.
use crate::report::Score;
use crate::{calls, notation, recordings};
use std::io;
use std::io::Write;

// What the cases of a group are.
#[derive(Clone, Copy)]
enum Kind {
    Recordings,
    Calls,
}

impl TryFrom<u8> for Kind {
    type Error = ();

    fn try_from(letter: u8) -> Result<Kind, ()> {
        match letter {
            b'r' | b'R' => Ok(Kind::Recordings),
            b'c' | b'C' => Ok(Kind::Calls),
            _ => Err(()),
        }
    }
}

// Whether a case of a group comes out right. One of a kind in capitals has something wrong in it,
// and must differ. A kind that is not known has no case that is right.
fn is_right(letter: u8, before: &[u8], case: &[u8]) -> bool {
    let holds = match Kind::try_from(letter) {
        Ok(Kind::Recordings) => recordings::holds(before, case),
        Ok(Kind::Calls) => calls::holds(before, case),
        Err(()) => return false,
    };
    holds != letter.is_ascii_uppercase()
}

// The group of a text that begins with its kind, a blank and its name. Each case is behind what the
// group has before the first.
fn run_group<O: Write>(output: &mut O, group: &[u8]) -> io::Result<Score> {
    let letter = group.first().copied().unwrap_or(0);
    let (name, _) = notation::cut(group.get(2..).unwrap_or(&[]), b'\n');
    let mut parts = group.split_inclusive(|&byte| byte == b'*');
    let (_, before) = notation::cut(parts.next().unwrap_or(&[]), b'^');
    let mut score = Score::default();
    for case in parts {
        score.judge(output, name, is_right(letter, before, case))?;
    }
    score.print(output, name)?;
    Ok(score)
}

// Every group of a text.
pub(crate) fn run<O: Write>(output: &mut O, text: &[u8]) -> io::Result<Score> {
    let mut score = Score::default();
    for group in text.split_inclusive(|&byte| byte == b'@').skip(1) {
        score += run_group(output, group)?;
    }
    Ok(score)
}
