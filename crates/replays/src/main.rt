// Recordings replayed one after the other: every kind of record, every refusal, the edges of 13, and 01's whole case cut at
// every place. Above each stand its lines, worked out by hand from document 01 and requests E1 and E4; the file `stdout` has
// them all.

#![tactic(auto)]

use pieces::Begun;
use std::io;

// the lines of one feed from a state, into an output that is long enough for them; the state then
fn feed(
    rt: &impl Print,
    registers: &mut [u16],
    begun: Begun,
    piece: &[u8],
    last: bool,
) -> io::Result<Begun> {
    let mut text = [0u8; 4096];
    let fed = recording::feed(registers, begun, piece, last, &mut text);
    rt.write_all(&text[..fed.written])?;
    Ok(fed.reached.begun)
}

// the lines of a whole recording from a store
fn show(rt: &impl Print, registers: &mut [u16], recording: &[u8]) -> io::Result<()> {
    feed(rt, registers, pieces::fresh(), recording, true)?;
    Ok(())
}

// every kind, relocation off
fn every_kind(rt: &impl Print) -> io::Result<()> {
    let mut registers = [0u16; 100];
    // G 157777 - --, G 760000 - --, D, R 011064, D, D
    show(
        rt,
        &mut registers,
        b"\x01\x00\x00\x00\x00\xFF\xDF\x01\x02\x01\x01\x01\x00\xE0\x04\x34\x12\x02\x7E\xFF\x03\x06\x06\xFE\x06\x01\x02",
    )?;
    // R 010766, X 10, D, R 000000, R 000250, D
    show(
        rt,
        &mut registers,
        b"\x02\x7C\xFF\x03\x06\x03\x01\x05\xA8\x00\x02\x7C\xFF\x03\x02\x7E\xFF\x03\x06\x07\xF0",
    )?;
    // D, R 074207, D, R 000000
    show(
        rt,
        &mut registers,
        b"\x06\x00\x0F\x02\x7C\xFF\x03\x07\x02\x7E\xFF\x03",
    )?;
    Ok(())
}

// aborts
fn aborts(rt: &impl Print) -> io::Result<()> {
    let mut registers = [0u16; 100];
    // D, D, G 005177 - 00, A 010, R 040001, D
    show(
        rt,
        &mut registers,
        b"\x03\xC0\xF4\x03\x06\x29\x03\x7A\xFF\x03\x01\x00\x01\x00\x00\x00\x00\x7F\x0A\x01\x00\x00\x01\x00\x80\x0A\x02\x7A\xFF\x03\x04\x11\x11",
    )?;
    // R 000000, D, X 09, X 09, X 09, X 09
    show(
        rt,
        &mut registers,
        b"\x02\x7E\xFF\x03\x06\x06\xFE\x06\x08\xFE\x06\x01\x10\x06\x01\xEF\x06\x01\x00",
    )?;
    // R 000000, A 100, R 140001, D, A 100, R 100117
    show(
        rt,
        &mut registers,
        b"\x02\x7C\xFF\x03\x01\x02\x00\x00\x01\x00\xE0\x02\x7A\xFF\x03\x03\x7A\xFF\x03\x01\x00\x01\x02\x00\x00\x00\x00\xE0\x02\x7A\xFF\x03",
    )?;
    // D
    show(rt, &mut registers, b"\x07")?;
    Ok(())
}

// traps, A and W, the data set
fn traps(rt: &impl Print) -> io::Result<()> {
    let mut registers = [0u16; 100];
    // D, D, G 000000 T 35, R 011147, R 077604, G 000000 T 35
    show(
        rt,
        &mut registers,
        b"\x03\x86\xFF\x03\x04\x7F\x03\x7A\xFF\x03\x01\x02\x01\x03\x00\x00\x00\x00\x60\x02\x7A\xFF\x03\x02\x86\xFF\x03\x01\x03\x00\x01\x00\x00\x60",
    )?;
    // R 077704, D, R 077404, G 040000 T 35, D, A 011
    show(
        rt,
        &mut registers,
        b"\x02\x86\xFF\x03\x03\xA6\xFF\x03\x00\x01\x02\x86\xFF\x03\x01\x03\x00\x00\x00\x00\x60\x03\x86\xFF\x03\x02\x29\x01\x03\x00\x01\x00\x80\x6A",
    )?;
    // R 071147, D, A 100, R 171147
    show(
        rt,
        &mut registers,
        b"\x02\x7A\xFF\x03\x03\x4E\xF5\x03\x01\x00\x01\x03\x01\x00\x00\x00\x60\x02\x7A\xFF\x03",
    )?;
    Ok(())
}

// refusals, and 11 at last
fn refusals(rt: &impl Print) -> io::Result<()> {
    let mut registers = [0u16; 100];
    // X 02, X 03, X 04, X 05, X 02, X 06
    show(
        rt,
        &mut registers,
        b"\x01\x04\x00\x00\x00\x00\x00\x01\x00\x02\x00\x00\x00\x00\x01\x00\x00\x02\x00\x00\x00\x01\x00\x00\x00\x02\x00\x00\x01\x04\x02\x02\x02\x00\x00\x02\x00\x00\x04",
    )?;
    // X 06, X 07, X 07, X 08, X 08, D
    show(
        rt,
        &mut registers,
        b"\x02\x01\x00\x04\x02\x7B\xFF\x03\x03\x7B\xFF\x03\x01\x00\x02\x00\x00\x00\x03\x78\xFF\x03\x01\x00\x07",
    )?;
    // X 09, X 11, and no more
    show(rt, &mut registers, b"\x06\x08\x01\x08\x07")?;
    Ok(())
}

// 12 after a whole record
fn cut(rt: &impl Print) -> io::Result<()> {
    let mut registers = [0u16; 100];
    // D, X 12
    show(rt, &mut registers, b"\x07\x03\x7A\xFF\x03\x01")?;
    Ok(())
}

// 12 with no body at all
fn only_a_kind(rt: &impl Print) -> io::Result<()> {
    let mut registers = [0u16; 100];
    // X 12
    show(rt, &mut registers, b"\x01")?;
    Ok(())
}

// 11 before 12
fn unknown_at_the_end(rt: &impl Print) -> io::Result<()> {
    let mut registers = [0u16; 100];
    // X 11
    show(rt, &mut registers, b"\x00")?;
    Ok(())
}

// nothing
fn empty(rt: &impl Print) -> io::Result<()> {
    let mut registers = [0u16; 100];
    show(rt, &mut registers, b"")?;
    Ok(())
}

// the last bytes of a recording, after so many others
fn show_from(rt: &impl Print, at: usize, piece: &[u8]) -> io::Result<()> {
    let mut registers = [0u16; 100];
    let begun = Begun {
        at,
        ..pieces::fresh()
    };
    feed(rt, &mut registers, begun, piece, true)?;
    Ok(())
}

// the edges of 13: of 16,777,216 bytes one or none is left
fn limit(rt: &impl Print) -> io::Result<()> {
    // D: the last record is whole
    show_from(rt, 16_777_215, b"\x07")?;
    // D, X 13
    show_from(rt, 16_777_215, b"\x07\x07")?;
    // X 12: it is cut, and nothing comes after it
    show_from(rt, 16_777_215, b"\x02")?;
    // X 13: it crosses the limit, though the end cuts it too
    show_from(rt, 16_777_215, b"\x02\x7A")?;
    // X 11: an unknown kind inside the limit
    show_from(rt, 16_777_215, b"\x00\x07")?;
    // nothing
    show_from(rt, 16_777_216, b"")?;
    // X 13: an unknown kind beyond it
    show_from(rt, 16_777_216, b"\x00")?;
    Ok(())
}

// 01's whole case
const WHOLE_CASE: [u8; 29] =
    *b"\x03\xEE\xF4\x03\x2E\x07\x03\xCE\xF4\x03\x06\x7F\x03\x7A\xFF\x03\x01\x00\x01\x00\x00\x00\x00\x2E\xEF\x02\xCE\xF4\x03";

// a whole recording cut in two at a place
fn show_cut(rt: &impl Print, recording: &[u8], at: usize) -> io::Result<()> {
    let Some((front, back)) = recording.split_at_checked(at) else {
        return Ok(());
    };
    let mut registers = [0u16; 100];
    let begun = feed(rt, &mut registers, pieces::fresh(), front, false)?;
    feed(rt, &mut registers, begun, back, true)?;
    Ok(())
}

// It is cut at each of its thirty places: D, D, D, G 355256 - 07, R 077406 each time
fn cuts(rt: &impl Print) -> io::Result<()> {
    for at in 0..=WHOLE_CASE.len() {
        show_cut(rt, &WHOLE_CASE, at)?;
    }
    Ok(())
}

// a store that is not 100 words
fn short_store(rt: &impl Print) -> io::Result<()> {
    let mut registers = [0u16; 99];
    // X 01
    show(rt, &mut registers, b"\x07")?;
    Ok(())
}

fn main(rt: HostRuntime) -> io::Result<()> {
    every_kind(&rt)?;
    aborts(&rt)?;
    traps(&rt)?;
    refusals(&rt)?;
    cut(&rt)?;
    only_a_kind(&rt)?;
    unknown_at_the_end(&rt)?;
    empty(&rt)?;
    limit(&rt)?;
    short_store(&rt)?;
    cuts(&rt)?;
    Ok(())
}
