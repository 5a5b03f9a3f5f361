// Why a run records nothing more, as it is said on standard error (docs/NOTATION.md, "A bad line").

use notation::Expected;
use std::fmt;
use stream::Failed;

#[derive(Drop)]
pub(crate) enum Stop {
    // A bad line, by its number, and what was expected.
    Bad(u64, Expected),
    // A line that is too long.
    Long(u64),
    Failed(Failed),
}

impl fmt::Display for Stop {
    fn fmt<W: fmt::Write>(&self, f: &mut fmt::Formatter<W>) -> fmt::Result {
        match self {
            Stop::Bad(line, expected) => write!(f, "line {line}: expected {expected}"),
            Stop::Long(line) => write!(f, "line {line}: expected a line of at most 4095 bytes"),
            Stop::Failed(failed) => failed.fmt(f),
        }
    }
}

impl From<Failed> for Stop {
    fn from(failed: Failed) -> Stop {
        Stop::Failed(failed)
    }
}
