// An event's record, appended to a lent buffer (request E2).

#![tactic(auto)]

mod judging;
mod putting;

ghost use Rattle.std.specs.Prelude.{◌≡◌};
ghost use Rattle.writer.specs.Writing.{said, write as write_of};

use rules::{Event, Refusal};

// Appends an event's record after the bytes used so far, and gives the new number of bytes used. A field too large for its bytes is
// refused first, by its number in 01; then by 14 a record that does not fit in what is left; then not a byte has changed. An event that
// the unit would refuse is written. The buffer and its bytes used come as two, as C gives them.
#[tactic(auto, using(crate::proofs::Judged::may_write, crate::proofs::Judged::writing, crate::proofs::Judged::refusing))]
pub fn write(buffer: &mut [u8], used: usize, event: Event) -> Result<usize, Refusal>
    ensures { (said result, buffer.new) ≡ write_of buffer.old used event }
{
    let next = judging::judge(buffer.len(), used, event)?;
    putting::put(buffer, used, event);
    Ok(next)
}
