// The readings of document 01 that are not starred, and the slips that it lists: each is run, and its answers and
// registers are written as lines. Beside each event stands its line, worked out by hand; the file `stdout` has them all.

#![tactic(auto)]

use rules::{Answer, Event, Reference, Refusal};
use std::io;

// An answer's line.
fn show(rt: &impl Print, a: Result<Answer, Refusal>) -> io::Result<()> {
    let mut text = [0u8; lines::LONGEST];
    let n = lines::put(&mut text, 0, a).unwrap_or(0);
    rt.write_all(text.get(..n).unwrap_or(b""))
}

fn title(rt: &impl Print, words: &[u8]) -> io::Result<()> {
    rt.write_all(words)
}

fn read(rt: &impl Print, store: &mut [u16], address: u32) -> io::Result<()> {
    show(rt, kt11c::apply(store, Event::Read { address }))
}

fn write(rt: &impl Print, store: &mut [u16], address: u32, value: u16) -> io::Result<()> {
    show(rt, kt11c::apply(store, Event::Write { address, value }))
}

// A reference by Kernel in the instruction phase.
fn refer(rt: &impl Print, store: &mut [u16], space: u32, access: u32, va: u16) -> io::Result<()> {
    let r = Reference {
        mode: 0,
        space,
        access,
        phase: 0,
        va,
    };
    show(rt, kt11c::apply(store, Event::Refer(r)))
}

fn length_zero(rt: &impl Print) -> io::Result<()> {
    title(
        rt,
        b"# length 0: ED 0 allows block 0 only, ED 1 allows all\n",
    )?;
    let mut s = [0u16; 100];
    write(rt, &mut s, 0o772300, 0o000006)?; // D: Kernel I 0, ED 0, key 6
    write(rt, &mut s, 0o777572, 0o000001)?; // D: relocation on
    refer(rt, &mut s, 0, 0, 0o000077)?; // G 000077 - 00
    refer(rt, &mut s, 0, 0, 0o000100)?; // A 010
    write(rt, &mut s, 0o777572, 0o000001)?; // D: the flag cleared
    write(rt, &mut s, 0o772300, 0o000016)?; // D: ED 1
    refer(rt, &mut s, 0, 0, 0o000000)?; // G 000000 - 00
    refer(rt, &mut s, 0, 0, 0o017777)?; // G 017777 - 00
    Ok(())
}

fn register_page(rt: &impl Print) -> io::Result<()> {
    title(
        rt,
        b"# PAR 7600, VA 172340, key 6, write: byte 772340, W stays clear\n",
    )?;
    let mut s = [0u16; 100];
    write(rt, &mut s, 0o772356, 0o007600)?; // D
    write(rt, &mut s, 0o772316, 0o077406)?; // D
    write(rt, &mut s, 0o777572, 0o000001)?; // D
    refer(rt, &mut s, 0, 1, 0o172340)?; // G 772340 - 07
    read(rt, &mut s, 0o772316)?; // R 077406
    Ok(())
}

fn sr0_written(rt: &impl Print) -> io::Result<()> {
    title(rt, b"# SR0 holding 0, write 177777: 171401\n")?;
    let mut s = [0u16; 100];
    write(rt, &mut s, 0o777572, 0o177777)?; // D
    read(rt, &mut s, 0o777572)?; // R 171401
    Ok(())
}

fn downward(rt: &impl Print) -> io::Result<()> {
    title(
        rt,
        b"# a downward length is the lowest block, and not a count of blocks\n",
    )?;
    let mut s = [0u16; 100];
    write(rt, &mut s, 0o772300, 0o025016)?; // D: length 052, ED 1, key 6
    write(rt, &mut s, 0o777572, 0o000001)?; // D
    refer(rt, &mut s, 0, 0, 0o005200)?; // G 005200 - 00: block 052
    refer(rt, &mut s, 0, 0, 0o005177)?; // A 010: block 051
    Ok(())
}

fn aborted_write(rt: &impl Print) -> io::Result<()> {
    title(rt, b"# an aborted write leaves W clear\n")?;
    let mut s = [0u16; 100];
    write(rt, &mut s, 0o772300, 0o077402)?; // D: key 2
    write(rt, &mut s, 0o777572, 0o000001)?; // D
    refer(rt, &mut s, 0, 1, 0o000000)?; // A 001
    read(rt, &mut s, 0o772300)?; // R 077402
    Ok(())
}

fn held_back(rt: &impl Print) -> io::Result<()> {
    title(rt, b"# bit 9 clear holds back the trap and not A\n")?;
    let mut s = [0u16; 100];
    write(rt, &mut s, 0o772300, 0o077404)?; // D: key 4
    write(rt, &mut s, 0o777572, 0o000001)?; // D: bit 9 clear
    refer(rt, &mut s, 0, 0, 0o000000)?; // G 000000 - 00
    read(rt, &mut s, 0o772300)?; // R 077604: A
    read(rt, &mut s, 0o777572)?; // R 000001
    Ok(())
}

fn no_freeze(rt: &impl Print) -> io::Result<()> {
    title(rt, b"# a trap does not freeze\n")?;
    let mut s = [0u16; 100];
    write(rt, &mut s, 0o772300, 0o077404)?; // D: key 4
    write(rt, &mut s, 0o772302, 0o077404)?; // D: and page 1
    write(rt, &mut s, 0o777572, 0o001001)?; // D: traps enabled
    refer(rt, &mut s, 0, 0, 0o000000)?; // G 000000 T 00
    show(
        rt,
        kt11c::apply(&mut s, Event::Instruction { va: 0o001234 }),
    )?; // D
    read(rt, &mut s, 0o777576)?; // R 001234
    refer(rt, &mut s, 0, 0, 0o020000)?; // G 000000 T 01
    read(rt, &mut s, 0o777572)?; // R 011003: page 1
    Ok(())
}

fn set_used(rt: &impl Print) -> io::Result<()> {
    title(
        rt,
        b"# SR0 bit 4 is the set used, and not the space asked for\n",
    )?;
    let mut s = [0u16; 100];
    write(rt, &mut s, 0o777572, 0o000001)?; // D; every page non-resident
    refer(rt, &mut s, 1, 0, 0o020000)?; // A 100: data, but D is not enabled
    read(rt, &mut s, 0o777572)?; // R 100003
    write(rt, &mut s, 0o777572, 0o000001)?; // D
    write(rt, &mut s, 0o772516, 0o000004)?; // D: SR3 enables D for Kernel
    refer(rt, &mut s, 1, 0, 0o020000)?; // A 100
    read(rt, &mut s, 0o777572)?; // R 100023
    Ok(())
}

fn marks_cleared(rt: &impl Print) -> io::Result<()> {
    title(rt, b"# a PAR write clears A and W as a PDR write does\n")?;
    let mut s = [0u16; 100];
    write(rt, &mut s, 0o772300, 0o077404)?; // D: key 4
    write(rt, &mut s, 0o777572, 0o000001)?; // D
    refer(rt, &mut s, 0, 1, 0o000000)?; // G 000000 - 00
    read(rt, &mut s, 0o772300)?; // R 077704: A and W
    write(rt, &mut s, 0o772340, 0o000010)?; // D: the PAR
    read(rt, &mut s, 0o772300)?; // R 077404
    refer(rt, &mut s, 0, 1, 0o000000)?; // G 001000 - 00
    write(rt, &mut s, 0o772300, 0o077404)?; // D: the PDR
    read(rt, &mut s, 0o772300)?; // R 077404
    Ok(())
}

fn main(rt: HostRuntime) -> io::Result<()> {
    length_zero(&rt)?;
    register_page(&rt)?;
    sr0_written(&rt)?;
    downward(&rt)?;
    aborted_write(&rt)?;
    held_back(&rt)?;
    no_freeze(&rt)?;
    set_used(&rt)?;
    marks_cleared(&rt)?;
    Ok(())
}
