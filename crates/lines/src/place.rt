// A text at a place of the lent output.

ghost use Rattle.std.specs.Prelude.{◌≡◌};
ghost use Rattle.lines.specs.Lines.{placed};

// Where it fits: how many bytes were written. Where it does not, none are. The output and the place come as two, since the clause names
// the output before and after.
#[tactic(auto, using(crate::proofs::Output::unfit, crate::proofs::Output::copied))]
pub(crate) fn put_text(out: &mut [u8], at: usize, text: &[u8]) -> Option<usize>
    ensures { (result, out.new) ≡ placed out.old at text.now }
{
    let end = at.checked_add(text.len())?;
    if out.len() < end {
        return None;
    }
    out[at..end].copy_from_slice(text);
    Some(text.len())
}
