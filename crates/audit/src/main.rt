// Reads a recording from standard input, audits it for demand 3 with all registers 0 at first, a piece at a time (request
// E4), and writes the report to standard output. If it can't read or write, it says so on standard error and stops.

#![tactic(auto)]

ghost use Rattle.std.specs.Prelude.{◌<◌, length, OnOk};
ghost use Rattle.std.specs.Io.KnownBytes.{Appends};
ghost use Rattle.account.specs.Surveys.{report_of};
ghost use Rattle.wording.specs.Texts.{text_of};
ghost use Rattle.audit.specs.Audits.{Audits};

use account::Survey;
use std::io;
use std::io::{Read, Write};
use stream::Failed;

// The report of an audit at its end.
fn tell<W: Write>(output: &mut W, registers: &[u16], survey: Survey) -> io::Result<()>
    ensures { OnOk result (Appends (W.contents output.old) (W.contents output.new) (text_of (report_of registers.now survey))) }
{
    let mut text = [0u8; 4096];
    let n = wording::write(&mut text, account::finish(registers, survey)).unwrap_or(0);
    output.write_all(&text[..n])
}

// The audit from a store, a piece of the input after the other.
fn audit<R: Read, W: Write>(
    input: &mut R,
    output: &mut W,
    registers: &mut [u16],
    piece: &mut [u8],
) -> Result<(), Failed>
    ensures { 0 < length piece.old → Audits result (R.remaining input.old) (W.contents output.old) (W.contents output.new) registers.old registers.new }
{
    let mut survey = account::begin(registers);
    loop {
        let ready = stream::more(input, piece, 0, 0).map_err(Failed::Input)?;
        let start = ready.from;
        let end = ready.to;
        survey = account::feed(registers, survey, &piece[start..end], ready.last);
        let begun = survey.begun;
        if begun.over {
            return tell(output, registers, survey).map_err(Failed::Output);
        }
    }
}

fn main(rt: HostRuntime) {
    let mut registers = [0u16; 100];
    let mut piece = [0u8; 4096];
    let audited = audit(
        &mut rt.stdin(),
        &mut rt.stdout(),
        &mut registers,
        &mut piece,
    );
    if let Err(failed) = audited {
        let _ = eprintln!(rt; "audit: {failed}");
    }
}

#[cfg(test)]
mod tests;
