// The parts of a line, each written at a place of the output and answering the place after it.

ghost use Rattle.std.specs.Prelude.{◌+◌, ◌≤◌, length};
ghost use Rattle.rules.specs.Paper.{number};
ghost use Rattle.lines.specs.Digits.{decimal, octal};
ghost use Rattle.wording.specs.Wrote.{Wrote};
ghost use Rattle.wording.specs.Texts.{reason_text, mode_text, set_text, page_text};

use auditing::Reason;
use rules::Refusal;

// The place goes along by itself: an output with its place in one struct would be a lent slice behind a lent struct, no plainer in a
// clause, which names the output before and after.
pub(crate) fn put(out: &mut [u8], at: usize, text: &[u8]) -> usize
    requires { at + length text.now ≤ length out.old }
    ensures { Wrote out.old at text.now result out.new }
{
    let end = at + text.len();
    out[at..end].copy_from_slice(text);
    end
}

// a byte's offset: eight decimal digits
pub(crate) fn put_offset(out: &mut [u8], at: usize, n: usize) -> usize
    requires { at + 8 ≤ length out.old }
    ensures { Wrote out.old at (decimal 8 n) result out.new }
{
    put(out, at, &lines::decimal::<8>(n as u64))
}

// a block: four octal digits
pub(crate) fn put_block(out: &mut [u8], at: usize, block: u16) -> usize
    requires { at + 4 ≤ length out.old }
    ensures { Wrote out.old at (octal 4 block) result out.new }
{
    put(out, at, &lines::octal::<4>(u64::from(block)))
}

// a refusal's number: two decimal digits
pub(crate) fn put_number(out: &mut [u8], at: usize, refusal: Refusal) -> usize
    requires { at + 2 ≤ length out.old }
    ensures { Wrote out.old at (decimal 2 (number refusal)) result out.new }
{
    put(out, at, &lines::decimal::<2>(u64::from(u32::from(refusal))))
}

pub(crate) fn put_reason(out: &mut [u8], at: usize, reason: Reason) -> usize
    requires { at + 40 ≤ length out.old }
    ensures { Wrote out.old at (reason_text reason) result out.new × (result ≤ at + 40) }
{
    match reason {
        Reason::Init => put(out, at, b"INIT"),
        Reason::WritesSr3 => put(out, at, b"a write to SR3"),
        Reason::RelocationOff => put(out, at, b"relocation not left on"),
        Reason::ChangesPar => put(out, at, b"PAR of a resident page changed"),
        Reason::ChangesEd => put(out, at, b"ED of a resident page changed"),
        Reason::Narrows => put(out, at, b"length of a resident page narrowed"),
        Reason::LosesRights => put(out, at, b"rights of a resident page lost"),
    }
}

// a third of the 48 places, and below half of one, which are no numbers of 01: an enum would only name each twice
fn put_mode(out: &mut [u8], at: usize, mode: u8) -> usize
    requires { at + 10 ≤ length out.old }
    ensures { Wrote out.old at (mode_text mode) result out.new × (result ≤ at + 10) }
{
    match mode {
        0 => put(out, at, b"Kernel"),
        1 => put(out, at, b"Supervisor"),
        _ => put(out, at, b"User"),
    }
}

fn put_set(out: &mut [u8], at: usize, set: u8) -> usize
    requires { at + 3 ≤ length out.old }
    ensures { Wrote out.old at (set_text set) result out.new × (result ≤ at + 3) }
{
    match set {
        0 => put(out, at, b" I "),
        _ => put(out, at, b" D "),
    }
}

// a page by its place among the 48: mode, set and number
pub(crate) fn put_page(out: &mut [u8], at: usize, page: u8) -> usize
    requires { at + 14 ≤ length out.old }
    ensures { Wrote out.old at (page_text page) result out.new × (result ≤ at + 14) }
{
    let a = put_mode(out, at, page / 16);
    let b = put_set(out, a, page / 8 % 2);
    put(out, b, &[b'0' + page % 8])
}
