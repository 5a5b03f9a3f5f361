// The unit over a lent store: an operation for each event of document 01, and `apply` for any of them.
// Every operation takes every input: a store of any length, and any numbers.

#![tactic(auto)]

ghost use Rattle.std.specs.Prelude.{◌≡◌};
ghost use Rattle.rules.specs.Paper.{paper};
ghost use Rattle.rules.specs.Step.{step};

pub use events::{init, instruction_start, interrupt_start, note_change};
pub use references::reference;
pub use registers::{read_register, write_register};
use rules::{Answer, Event, Refusal};

// Any event.
pub fn apply(s: &mut [u16], e: Event) -> Result<Answer, Refusal>
    ensures { (paper result, s.new) ≡ step s.old e }
{
    match e {
        Event::Refer(r) => reference(s, r),
        Event::Read { address } => read_register(s, address),
        Event::Write { address, value } => write_register(s, address, value),
        Event::Instruction { va } => instruction_start(s, va),
        Event::Interrupt { vector } => interrupt_start(s, vector),
        Event::Change { register, amount } => note_change(s, register, amount),
        Event::Init => init(s),
    }
}
