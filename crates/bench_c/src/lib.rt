// The writing and reading of recordings as C links them: each export calls `bench`, by the same clauses. A crate of its own, since what C links
// is a static library. include/kt11c.h says them for C.

#![tactic(auto)]

ghost use Rattle.std.specs.Prelude.{◌≡◌};
ghost use Rattle.rules.specs.declared.Event.TheVariants.{Refer, Read, Write, Instruction, Interrupt, Change, Init};
ghost use Rattle.records.specs.Records.{record_at};
ghost use Rattle.writer.specs.Writing.{write};
ghost use Rattle.reader.specs.Reading.{place_after};
ghost use Rattle.rules.specs.References.{reference_of};
ghost use Rattle.bench.specs.Codes.{coded, found_code};

#[unsafe(no_mangle)]
pub extern "C" fn kt11c_record_reference(
    buffer: &mut [u8],
    used: usize,
    mode: u32,
    space: u32,
    access: u32,
    phase: u32,
    va: u16,
) -> u32
    ensures { (result, buffer.new) ≡ coded used (write buffer.old used (Refer (reference_of mode space access phase va))) }
{
    bench::kt11c_record_reference(buffer, used, mode, space, access, phase, va)
}

#[unsafe(no_mangle)]
pub extern "C" fn kt11c_record_read(buffer: &mut [u8], used: usize, address: u32) -> u32
    ensures { (result, buffer.new) ≡ coded used (write buffer.old used (Read address)) }
{
    bench::kt11c_record_read(buffer, used, address)
}

#[unsafe(no_mangle)]
pub extern "C" fn kt11c_record_write(
    buffer: &mut [u8],
    used: usize,
    address: u32,
    value: u16,
) -> u32
    ensures { (result, buffer.new) ≡ coded used (write buffer.old used (Write address value)) }
{
    bench::kt11c_record_write(buffer, used, address, value)
}

#[unsafe(no_mangle)]
pub extern "C" fn kt11c_record_instruction(buffer: &mut [u8], used: usize, va: u16) -> u32
    ensures { (result, buffer.new) ≡ coded used (write buffer.old used (Instruction va)) }
{
    bench::kt11c_record_instruction(buffer, used, va)
}

#[unsafe(no_mangle)]
pub extern "C" fn kt11c_record_interrupt(buffer: &mut [u8], used: usize, vector: u16) -> u32
    ensures { (result, buffer.new) ≡ coded used (write buffer.old used (Interrupt vector)) }
{
    bench::kt11c_record_interrupt(buffer, used, vector)
}

#[unsafe(no_mangle)]
pub extern "C" fn kt11c_record_change(
    buffer: &mut [u8],
    used: usize,
    register: u32,
    amount: i32,
) -> u32
    ensures { (result, buffer.new) ≡ coded used (write buffer.old used (Change register amount)) }
{
    bench::kt11c_record_change(buffer, used, register, amount)
}

#[unsafe(no_mangle)]
pub extern "C" fn kt11c_record_init(buffer: &mut [u8], used: usize) -> u32
    ensures { (result, buffer.new) ≡ coded used (write buffer.old used Init) }
{
    bench::kt11c_record_init(buffer, used)
}

// What stands at a place of a recording.
#[unsafe(no_mangle)]
pub extern "C" fn kt11c_event_at(recording: &[u8], at: usize) -> u64
    ensures { result ≡ found_code (record_at recording.now at) }
{
    bench::kt11c_event_at(recording, at)
}

// The place past the record at a place; the same place where no whole record stands.
#[unsafe(no_mangle)]
pub extern "C" fn kt11c_place_after(recording: &[u8], at: usize) -> usize
    ensures { result ≡ place_after recording.now at }
{
    bench::kt11c_place_after(recording, at)
}
