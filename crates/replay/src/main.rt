// Reads a recording from standard input, replays it with all registers 0 at first, and writes its transcript to
// standard output (01, "Recordings"), a piece at a time (request E4). If it can't read or write, it says so on standard
// error and stops.

#![tactic(auto)]

ghost use Rattle.std.specs.Prelude.{◌<◌, length};
ghost use Rattle.transcript.specs.Claims.{Roomy};
ghost use Rattle.replay.specs.Replayed.{Replayed};

use std::io::{Read, Write};
use stream::Failed;

// The transcript from a store: a piece of the input after the other, and a buffer of text after the other.
fn replay<R: Read, W: Write>(
    input: &mut R,
    output: &mut W,
    registers: &mut [u16],
    piece: &mut [u8],
    text: &mut [u8],
) -> Result<(), Failed>
    requires { Roomy (length text.old) }
    ensures { 0 < length piece.old → Replayed result (R.remaining input.old) (W.contents output.old) (W.contents output.new) registers.old registers.new }
{
    let mut begun = pieces::fresh();
    let mut from = 0;
    let mut to = 0;
    while !begun.over {
        let ready = stream::more(input, piece, from, to).map_err(Failed::Input)?;
        let start = ready.from;
        let end = ready.to;
        let fed = recording::feed(registers, begun, &piece[start..end], ready.last, text);
        let written = fed.written;
        output.write_all(&text[..written]).map_err(Failed::Output)?;
        let reached = fed.reached;
        from = start + reached.taken;
        to = end;
        begun = reached.begun;
    }
    Ok(())
}

fn main(rt: HostRuntime) {
    let mut registers = [0u16; 100];
    let mut piece = [0u8; 4096];
    let mut text = [0u8; 4096];
    let replayed = replay(
        &mut rt.stdin(),
        &mut rt.stdout(),
        &mut registers,
        &mut piece,
        &mut text,
    );
    if let Err(failed) = replayed {
        let _ = eprintln!(rt; "replay: {failed}");
    }
}

#[cfg(test)]
mod tests;
