// An event that a record holds, as one number, which is what C takes.

ghost use Rattle.std.specs.Prelude.{◌≡◌, true, ◌*◌, ◌≤◌, ◌<◌};
ghost use Rattle.rules.specs.Refusals.{lowest};
ghost use Rattle.rules.specs.declared.Event.TheVariants.{Refer, Change};
ghost use Rattle.writer.specs.Writing.{in_byte, large};
ghost use Rattle.bench.specs.Codes.{excess as excess_of, fields as fields_of, event_code};

use rules::{Event, Reference};

// a 16-bit number in bits 47:32
fn upper(n: u16) -> u64
    ensures { (result ≡ n * 0x100000000) × (result < 0x1000000000000) }
{
    u64::from(n) * 0x100000000
}

// an amount from -128 to 127 as 0 to 255; an event's amount may be any, and `large` is what says that it fits
fn excess(amount: i32) -> u64
    requires { in_byte amount ≡ true }
    ensures { (result ≡ excess_of amount) × (result ≤ 255) }
{
    (amount + 128) as u64
}

fn reference_fields(r: Reference) -> u64
    ensures { (result ≡ fields_of (Refer r)) × (result < 0x200000000000000) }
{
    upper(r.va)
        + u64::from(r.phase) * 0x1000000
        + u64::from(r.access) * 0x10000
        + u64::from(r.space) * 0x100
        + u64::from(r.mode)
}

fn change_fields(register: u32, amount: i32) -> u64
    requires { in_byte amount ≡ true }
    ensures { (result ≡ fields_of (Change register amount)) × (result < 0x200000000000000) }
{
    u64::from(register) * 0x100 + excess(amount)
}

#[tactic(auto, unfolding(crate::specs::Codes::event_code))]
pub(crate) fn event_code(event: Event) -> u64
    requires { lowest (large event) ≡ 0 }
    ensures { result ≡ event_code event }
{
    match event {
        Event::Refer(r) => 0x7100000000000000 + reference_fields(r),
        Event::Read { address } => 0x7200000000000000 + u64::from(address),
        Event::Write { address, value } => 0x7300000000000000 + (upper(value) + u64::from(address)),
        Event::Instruction { va } => 0x7400000000000000 + upper(va),
        Event::Interrupt { vector } => 0x7500000000000000 + upper(vector),
        Event::Change { register, amount } => 0x7600000000000000 + change_fields(register, amount),
        Event::Init => 0x7700000000000000,
    }
}
