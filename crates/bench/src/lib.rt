// The writing of recordings and their reading back, numbers in and one number out (request E2); `bench_c` exports these functions.
// The codes are in specs/Codes.antt; include/kt11c.h says them for C.

#![tactic(auto)]

mod codes;

ghost use Rattle.std.specs.Prelude.{◌≡◌};
ghost use Rattle.rules.specs.declared.Event.TheVariants.{Refer, Read, Write, Instruction, Interrupt, Change, Init};
ghost use Rattle.records.specs.Records.{record_at};
ghost use Rattle.writer.specs.Writing.{write};
ghost use Rattle.reader.specs.Reading.{place_after};
ghost use Rattle.rules.specs.References.{reference_of};
ghost use Rattle.bench.specs.Codes.{coded, found_code};

use rules::{Event, Reference};

// Appends an event's record; the answer is one number, which is what C takes.
fn record(buffer: &mut [u8], used: usize, event: Event) -> u32
    ensures { (result, buffer.new) ≡ coded used (write buffer.old used event) }
{
    match writer::write(buffer, used, event) {
        Ok(next) => 0x60000000 + (next - used) as u32,
        Err(refusal) => 0x50000000 + u32::from(refusal),
    }
}

pub fn kt11c_record_reference(
    buffer: &mut [u8],
    used: usize,
    mode: u32,
    space: u32,
    access: u32,
    phase: u32,
    va: u16,
) -> u32
    ensures { (result, buffer.new) ≡ coded used (write buffer.old used (Refer (reference_of mode space access phase va))) }
{
    record(
        buffer,
        used,
        Event::Refer(Reference {
            mode,
            space,
            access,
            phase,
            va,
        }),
    )
}

pub fn kt11c_record_read(buffer: &mut [u8], used: usize, address: u32) -> u32
    ensures { (result, buffer.new) ≡ coded used (write buffer.old used (Read address)) }
{
    record(buffer, used, Event::Read { address })
}

pub fn kt11c_record_write(buffer: &mut [u8], used: usize, address: u32, value: u16) -> u32
    ensures { (result, buffer.new) ≡ coded used (write buffer.old used (Write address value)) }
{
    record(buffer, used, Event::Write { address, value })
}

pub fn kt11c_record_instruction(buffer: &mut [u8], used: usize, va: u16) -> u32
    ensures { (result, buffer.new) ≡ coded used (write buffer.old used (Instruction va)) }
{
    record(buffer, used, Event::Instruction { va })
}

pub fn kt11c_record_interrupt(buffer: &mut [u8], used: usize, vector: u16) -> u32
    ensures { (result, buffer.new) ≡ coded used (write buffer.old used (Interrupt vector)) }
{
    record(buffer, used, Event::Interrupt { vector })
}

pub fn kt11c_record_change(buffer: &mut [u8], used: usize, register: u32, amount: i32) -> u32
    ensures { (result, buffer.new) ≡ coded used (write buffer.old used (Change register amount)) }
{
    record(buffer, used, Event::Change { register, amount })
}

pub fn kt11c_record_init(buffer: &mut [u8], used: usize) -> u32
    ensures { (result, buffer.new) ≡ coded used (write buffer.old used Init) }
{
    record(buffer, used, Event::Init)
}

// What stands at a place of a recording.
pub fn kt11c_event_at(recording: &[u8], at: usize) -> u64
    ensures { result ≡ found_code (record_at recording.now at) }
{
    match reader::read(recording, at) {
        Ok(Some((event, _))) => codes::event_code(event),
        Ok(None) => 0,
        Err(refusal) => 0x5000000000000000 + u64::from(u32::from(refusal)),
    }
}

// The place past the record at a place; the same place where no whole record stands.
pub fn kt11c_place_after(recording: &[u8], at: usize) -> usize
    ensures { result ≡ place_after recording.now at }
{
    reader::after(recording, at)
}
