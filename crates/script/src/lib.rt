// A line of events as text, recorded: read by `notation`, written by `writer`.

#![tactic(auto)]

ghost use Rattle.std.specs.Prelude.{◌≡◌};
ghost use Rattle.script.specs.Recording.{record_line, write_byte};
ghost use Rattle.script.specs.declared.Problem.TheVariants.{Bad};

use notation::{Expected, Line};

// Why a line is not recorded.
#[derive(Clone, Copy, Debug, PartialEq, Eq)]
pub enum Problem {
    // Its record does not fit in what is left.
    Full,
    // It says no event: what was expected.
    Bad(Expected),
}

impl From<Expected> for Problem {
    ghost from_gives = { λ e p. p ≡ Bad e };

    fn from(e: Expected) -> Problem {
        Problem::Bad(e)
    }
}

// A byte as it is, for a damaged recording.
#[tactic(auto, unfolding(crate::specs::Recording::write_byte))]
fn write_byte(out: &mut [u8], used: usize, b: u8) -> Result<usize, Problem>
    ensures { (result, out.new) ≡ write_byte out.old used b }
{
    if used < out.len() {
        out[used] = b;
        Ok(used + 1)
    } else {
        Err(Problem::Full)
    }
}

// Appends what a line says, without its line feed, to the bytes used so far, and gives the new number of bytes used: the same for a
// line without a word. The output and its bytes used come as two, as `writer` takes them.
#[tactic(auto, unfolding(crate::specs::Recording::record_line))]
pub fn record_line(line: &[u8], out: &mut [u8], used: usize) -> Result<usize, Problem>
    ensures { (result, out.new) ≡ record_line line.now out.old used }
{
    match notation::read_line(line)? {
        Line::Blank => Ok(used),
        Line::Event(event) => writer::write(out, used, event).map_err(|_| Problem::Full),
        Line::Byte(b) => write_byte(out, used, b),
    }
}
