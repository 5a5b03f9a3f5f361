// The unit's operations as C links them: each export calls `board`, by the same clauses. A crate of its own, since what C links
// is a static library. include/kt11c.h says them for C.

#![tactic(auto)]

ghost use Rattle.std.specs.Prelude.{◌≡◌};
ghost use Rattle.rules.specs.Step.{step};
ghost use Rattle.rules.specs.declared.Event.TheVariants.{Refer, Read, Write, Instruction, Interrupt, Change, Init};
ghost use Rattle.rules.specs.References.{reference_of};
ghost use Rattle.board.specs.Codes.{coded};

#[unsafe(no_mangle)]
pub extern "C" fn kt11c_reference(
    store: &mut [u16],
    mode: u32,
    space: u32,
    access: u32,
    phase: u32,
    va: u16,
) -> u32
    ensures { (result, store.new) ≡ coded (step store.old (Refer (reference_of mode space access phase va))) }
{
    board::kt11c_reference(store, mode, space, access, phase, va)
}

#[unsafe(no_mangle)]
pub extern "C" fn kt11c_read(store: &[u16], address: u32) -> u32
    ensures { (result, store.now) ≡ coded (step store.now (Read address)) }
{
    board::kt11c_read(store, address)
}

#[unsafe(no_mangle)]
pub extern "C" fn kt11c_write(store: &mut [u16], address: u32, value: u16) -> u32
    ensures { (result, store.new) ≡ coded (step store.old (Write address value)) }
{
    board::kt11c_write(store, address, value)
}

#[unsafe(no_mangle)]
pub extern "C" fn kt11c_instruction(store: &mut [u16], va: u16) -> u32
    ensures { (result, store.new) ≡ coded (step store.old (Instruction va)) }
{
    board::kt11c_instruction(store, va)
}

#[unsafe(no_mangle)]
pub extern "C" fn kt11c_interrupt(store: &mut [u16], vector: u16) -> u32
    ensures { (result, store.new) ≡ coded (step store.old (Interrupt vector)) }
{
    board::kt11c_interrupt(store, vector)
}

#[unsafe(no_mangle)]
pub extern "C" fn kt11c_change(store: &mut [u16], register: u32, amount: i32) -> u32
    ensures { (result, store.new) ≡ coded (step store.old (Change register amount)) }
{
    board::kt11c_change(store, register, amount)
}

#[unsafe(no_mangle)]
pub extern "C" fn kt11c_init(store: &mut [u16]) -> u32
    ensures { (result, store.new) ≡ coded (step store.old Init) }
{
    board::kt11c_init(store)
}
