// The loop over bytes in memory: that it ends well, which no clause says.

use super::replay;
use std::io;

// 01's whole case, read five bytes at a time at the most; its lines stand in 01 and in request E1
#[test]
fn whole_case(rt: HostRuntime) -> io::Result<()> {
    let recording =
        b"\x03\xEE\xF4\x03\x2E\x07\x03\xCE\xF4\x03\x06\x7F\x03\x7A\xFF\x03\x01\x00\x01\x00\x00\x00\x00\x2E\xEF\x02\xCE\xF4\x03";
    let mut input: &[u8] = recording;
    let mut output = Vec::new(rt.alloc());
    let mut registers = [0u16; 100];
    let mut piece = [0u8; 5];
    let mut text = [0u8; 64];
    let replayed = replay(
        &mut input,
        &mut output,
        &mut registers,
        &mut piece,
        &mut text,
    );
    assert!(rt; replayed.is_ok());
    assert_eq!(rt;
        output.as_slice(),
        b"D\nD\nD\nG 355256 - 07\nR 077406\n".as_slice()
    );
    Ok(())
}
