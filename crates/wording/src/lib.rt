// The report of an audit as text, a line for each thing it says.

#![tactic(auto)]

ghost use Rattle.std.specs.Prelude.{◌≡◌, ◌≤◌, length, IfSome};
ghost use Rattle.wording.specs.Texts.{placed_of};

use account::Report;
use rules::Refusal;

mod parts;
mod report;

// The text of a report, where the output has room for the longest: how many bytes were written.
pub fn write(out: &mut [u8], report: Result<Report, Refusal>) -> Option<usize>
    ensures { ((result, out.new) ≡ placed_of out.old report) × IfSome result (λ n. n ≤ length out.new) }
{
    if out.len() < 320 {
        return None;
    }
    Some(report::put_report(out, report))
}
