// Each operation over a lent store, with numbers in and one number out, as a board wants them; `board_c` exports these functions.
// The codes are in specs/Codes.antt; include/kt11c.h says them for C.

#![tactic(auto)]

ghost use Rattle.std.specs.Prelude.{◌≡◌, ◌≤◌};
ghost use Rattle.rules.specs.Paper.{paper};
ghost use Rattle.rules.specs.Step.{step};
ghost use Rattle.rules.specs.declared.Event.TheVariants.{Refer, Read, Write, Instruction, Interrupt, Change, Init};
ghost use Rattle.rules.specs.References.{reference_of};
ghost use Rattle.board.specs.Codes.{Small, six_bits, code_of, coded};

use rules::{Answer, Reference, Refusal};

// What goes to bits 23:18: the place of the page that served, or 63 for none. `Small` says that it has room there.
fn six_bits(served: Option<u8>) -> u32
    ensures { (result ≡ six_bits served) × (result ≤ 255) }
{
    match served {
        Some(place) => u32::from(place),
        None => 63,
    }
}

// An answer or a refusal as one number, which is what C takes.
fn code(a: Result<Answer, Refusal>) -> u32
    requires { Small (paper a) }
    ensures { result ≡ code_of (paper a) }
{
    match a {
        Ok(Answer::Granted { byte, trap, served }) => {
            0x10000000 + u32::from(trap) * 0x01000000 + six_bits(served) * 0x00040000 + byte
        }
        Ok(
            Answer::Aborted {
                nonresident,
                length,
                readonly,
            },
        ) => {
            0x20000000 + u32::from(nonresident) * 4 + u32::from(length) * 2 + u32::from(readonly)
        }
        Ok(Answer::Word(w)) => 0x30000000 + u32::from(w),
        Ok(Answer::Done) => 0x40000000,
        Err(refusal) => 0x50000000 + u32::from(refusal),
    }
}

pub fn kt11c_reference(
    store: &mut [u16],
    mode: u32,
    space: u32,
    access: u32,
    phase: u32,
    va: u16,
) -> u32
    ensures { (result, store.new) ≡ coded (step store.old (Refer (reference_of mode space access phase va))) }
{
    code(kt11c::reference(
        store,
        Reference {
            mode,
            space,
            access,
            phase,
            va,
        },
    ))
}

#[tactic(auto, using(crate::proofs::Small::small))]
pub fn kt11c_read(store: &[u16], address: u32) -> u32
    ensures { (result, store.now) ≡ coded (step store.now (Read address)) }
{
    code(kt11c::read_register(store, address))
}

pub fn kt11c_write(store: &mut [u16], address: u32, value: u16) -> u32
    ensures { (result, store.new) ≡ coded (step store.old (Write address value)) }
{
    code(kt11c::write_register(store, address, value))
}

pub fn kt11c_instruction(store: &mut [u16], va: u16) -> u32
    ensures { (result, store.new) ≡ coded (step store.old (Instruction va)) }
{
    code(kt11c::instruction_start(store, va))
}

pub fn kt11c_interrupt(store: &mut [u16], vector: u16) -> u32
    ensures { (result, store.new) ≡ coded (step store.old (Interrupt vector)) }
{
    code(kt11c::interrupt_start(store, vector))
}

pub fn kt11c_change(store: &mut [u16], register: u32, amount: i32) -> u32
    ensures { (result, store.new) ≡ coded (step store.old (Change register amount)) }
{
    code(kt11c::note_change(store, register, amount))
}

pub fn kt11c_init(store: &mut [u16]) -> u32
    ensures { (result, store.new) ≡ coded (step store.old Init) }
{
    code(kt11c::init(store))
}
