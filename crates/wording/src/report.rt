// The lines of a report. Each asks for the room of a longest line, since an output is a lent slice and has no type of its own.

ghost use Rattle.std.specs.Prelude.{◌+◌, ◌≤◌, length, Some, Ok};
ghost use Rattle.wording.specs.Wrote.{Wrote};
ghost use Rattle.wording.specs.Texts.{end_text, kept_text, broken_text, map_text, text_of};

use super::parts;
use account::Report;
use auditing::Reason;
use meetings::Meeting;
use rules::Refusal;

fn put_end(out: &mut [u8], at: usize, ending: Result<(), Refusal>, end: usize) -> usize
    requires { at + 80 ≤ length out.old }
    ensures { Wrote out.old at (end_text ending end) result out.new × (result ≤ at + 80) }
{
    match ending {
        Ok(()) => {
            let a = parts::put(out, at, b"end: all records read, ");
            let b = parts::put_offset(out, a, end);
            parts::put(out, b, b" bytes\n")
        }
        Err(refusal) => {
            let a = parts::put(out, at, b"end: stopped by ");
            let b = parts::put_number(out, a, refusal);
            let c = parts::put(out, b, b" at byte ");
            let d = parts::put_offset(out, c, end);
            parts::put(out, d, b"\n")
        }
    }
}

fn put_kept(out: &mut [u8], at: usize, kept: Option<usize>) -> usize
    requires { at + 80 ≤ length out.old }
    ensures { Wrote out.old at (kept_text kept) result out.new × (result ≤ at + 80) }
{
    match kept {
        Some(from) => {
            let a = parts::put(out, at, b"kept: from byte ");
            let b = parts::put_offset(out, a, from);
            parts::put(out, b, b" to the end\n")
        }
        None => parts::put(out, at, b"kept: not at the end, relocation is off\n"),
    }
}

fn put_broken(out: &mut [u8], at: usize, broken: Option<(usize, Reason)>) -> usize
    requires { at + 80 ≤ length out.old }
    ensures { Wrote out.old at (broken_text broken) result out.new × (result ≤ at + 80) }
{
    match broken {
        Some((byte, reason)) => {
            let a = parts::put(out, at, b"broken: last at byte ");
            let b = parts::put_offset(out, a, byte);
            let c = parts::put(out, b, b", ");
            let d = parts::put_reason(out, c, reason);
            parts::put(out, d, b"\n")
        }
        None => parts::put(out, at, b"broken: nowhere\n"),
    }
}

fn put_meeting(out: &mut [u8], at: usize, m: Meeting) -> usize
    requires { at + 80 ≤ length out.old }
    ensures { Wrote out.old at (map_text (Ok (Some m))) result out.new × (result ≤ at + 80) }
{
    let a = parts::put(out, at, b"map: block ");
    let b = parts::put_block(out, a, m.block);
    let c = parts::put(out, b, b" is shared by ");
    let d = parts::put_page(out, c, m.first);
    let e = parts::put(out, d, b" and ");
    let f = parts::put_page(out, e, m.second);
    parts::put(out, f, b"\n")
}

fn put_parting(out: &mut [u8], at: usize, meeting: Option<Meeting>) -> usize
    requires { at + 80 ≤ length out.old }
    ensures { Wrote out.old at (map_text (Ok meeting)) result out.new × (result ≤ at + 80) }
{
    match meeting {
        None => parts::put(out, at, b"map: the modes are apart\n"),
        Some(m) => put_meeting(out, at, m),
    }
}

fn put_map(out: &mut [u8], at: usize, map: Result<Option<Meeting>, Refusal>) -> usize
    requires { at + 80 ≤ length out.old }
    ensures { Wrote out.old at (map_text map) result out.new × (result ≤ at + 80) }
{
    match map {
        Ok(meeting) => put_parting(out, at, meeting),
        Err(refusal) => {
            let a = parts::put(out, at, b"map: refused by ");
            let b = parts::put_number(out, a, refusal);
            parts::put(out, b, b"\n")
        }
    }
}

pub(crate) fn put_report(out: &mut [u8], report: Result<Report, Refusal>) -> usize
    requires { 320 ≤ length out.old }
    ensures { Wrote out.old 0 (text_of report) result out.new × (result ≤ 320) }
{
    match report {
        Ok(Report { course, map }) => {
            let a = put_end(out, 0, course.ending, course.at);
            let b = put_kept(out, a, course.tally.kept);
            let c = put_broken(out, b, course.tally.broken);
            put_map(out, c, map)
        }
        Err(refusal) => {
            let a = parts::put(out, 0, b"end: refused by ");
            let b = parts::put_number(out, a, refusal);
            parts::put(out, b, b"\n")
        }
    }
}
