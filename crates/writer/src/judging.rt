// Whether an event's record is written: its fields against their bytes, by 01's numbers, and then 14, in that order.

ghost use Rattle.std.specs.Prelude.{◌≡◌, ◌+◌, length};
ghost use Rattle.rules.specs.Refusals.{lowest};
ghost use Rattle.writer.specs.Bytes.{record_of};
ghost use Rattle.writer.specs.Writing.{said, refused_by, in_byte as in_byte_of, large_reference, large_address, large_change, short, unwritten, answer};

use rules::{Event, Reference, Refusal};

// -128 to 127
fn in_byte(amount: i32) -> bool
    ensures { result ≡ in_byte_of amount }
{
    matches!(amount, -128..=127)
}

fn reference_fits(r: Reference) -> Result<(), Refusal>
    ensures { refused_by result ≡ lowest (large_reference r) }
{
    if 255 < r.mode {
        return Err(Refusal::Mode);
    }
    if 255 < r.space {
        return Err(Refusal::Space);
    }
    if 255 < r.access {
        return Err(Refusal::Access);
    }
    if 255 < r.phase {
        return Err(Refusal::Phase);
    }
    Ok(())
}

// a register's address has three bytes
fn address_fits(address: u32) -> Result<(), Refusal>
    ensures { refused_by result ≡ lowest (large_address address) }
{
    if 0o77777777 < address {
        return Err(Refusal::High);
    }
    Ok(())
}

fn change_fits(register: u32, amount: i32) -> Result<(), Refusal>
    ensures { refused_by result ≡ lowest (large_change register amount) }
{
    if 255 < register || !in_byte(amount) {
        return Err(Refusal::BadChange);
    }
    Ok(())
}

// The bytes used once so many more are written, if they fit in the room.
fn used_after(room: usize, used: usize, bytes: usize) -> Result<usize, Refusal>
    ensures { said result ≡ answer (lowest (short room used bytes)) (used + bytes) }
{
    match used.checked_add(bytes) {
        Some(next) if next <= room => Ok(next),
        _ => Err(Refusal::Room),
    }
}

// The answer of writing into a buffer of so much room. Each event has its room's test beside its fields', since one test behind
// all of them takes longer.
#[tactic(auto, using(crate::proofs::Judged::fields_refuse, crate::proofs::Judged::room_decides), unfolding(crate::specs::Bytes::record_of, crate::specs::Writing::unwritten))]
pub(crate) fn judge(room: usize, used: usize, event: Event) -> Result<usize, Refusal>
    ensures { said result ≡ answer (unwritten room used event) (used + length (record_of event)) }
{
    match event {
        Event::Refer(r) => {
            reference_fits(r)?;
            used_after(room, used, 7)
        }
        Event::Read { address } => {
            address_fits(address)?;
            used_after(room, used, 4)
        }
        Event::Write { address, value: _ } => {
            address_fits(address)?;
            used_after(room, used, 6)
        }
        Event::Instruction { va: _ } => used_after(room, used, 3),
        Event::Interrupt { vector: _ } => used_after(room, used, 3),
        Event::Change { register, amount } => {
            change_fits(register, amount)?;
            used_after(room, used, 3)
        }
        Event::Init => used_after(room, used, 1),
    }
}
