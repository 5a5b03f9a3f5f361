// Demand 3's premises on one step, so that a bench can check them while it records.

#![tactic(auto)]

ghost use Rattle.std.specs.Prelude.{◌≡◌};
ghost use Rattle.rules.specs.Keys.{key_of, non_resident};
ghost use Rattle.widening.specs.Widens.{keeps_blocks, keeps_rights};
ghost use Rattle.auditing.specs.Verdicts.{verdict_of, broken_by};
ghost use Rattle.auditing.specs.Places.{left_on, par_verdict, pdr_verdict, place_verdict};

use rules::{Event, Refusal, SR0, SR3, Store};

// The premises of demand 3 on a step, in their order.
#[derive(Clone, Copy, Debug, PartialEq, Eq)]
pub enum Reason {
    // INIT
    Init,
    // a write to SR3
    WritesSr3,
    // a write that leaves relocation off
    RelocationOff,
    // another PAR at a resident page
    ChangesPar,
    // another ED, fewer blocks, fewer rights at a resident page
    ChangesEd,
    Narrows,
    LosesRights,
}

// The key of a PDR is 0, 3 or 7.
#[tactic(auto, using(ruling::proofs::Keys::absent))]
fn absent(pdr: u16) -> bool
    ensures { result ≡ non_resident (key_of pdr) }
{
    !ruling::right_of(pdr).read
}

// The length field is no smaller (ED 0) or no larger (ED 1).
fn keeps_blocks(old: u16, new: u16) -> bool
    ensures { result ≡ keeps_blocks old new }
{
    if old / 8 % 2 == 0 {
        old / 256 % 128 <= new / 256 % 128
    } else {
        new / 256 % 128 <= old / 256 % 128
    }
}

// The new key has at least the old rights.
#[tactic(auto, unfolding(rules::specs::Keys::right_of))]
fn keeps_rights(old: u16, new: u16) -> bool
    ensures { result ≡ keeps_rights (key_of old) (key_of new) }
{
    let had = ruling::right_of(old);
    let has = ruling::right_of(new);
    (!had.read || has.read) && (!had.write || has.write)
}

// A PAR write, given the page's PDR.
#[tactic(auto, unfolding(widening::specs::Widens::widens_par))]
fn judge_par(pdr: u16, old: u16, new: u16) -> Option<Reason>
    ensures { result ≡ par_verdict pdr old new }
{
    if absent(pdr) || new % 4096 == old % 4096 {
        None
    } else {
        Some(Reason::ChangesPar)
    }
}

// A PDR write.
fn judge_pdr(old: u16, new: u16) -> Option<Reason>
    ensures { result ≡ pdr_verdict old new }
{
    if absent(old) {
        None
    } else if new / 8 % 2 != old / 8 % 2 {
        Some(Reason::ChangesEd)
    } else if !keeps_blocks(old, new) {
        Some(Reason::Narrows)
    } else if !keeps_rights(old, new) {
        Some(Reason::LosesRights)
    } else {
        None
    }
}

// SR0 bit 0 after the write.
fn left_on(sr0: u16, place: usize, value: u16) -> bool
    ensures { result ≡ left_on sr0 place value }
{
    let word = if place == SR0 { value } else { sr0 };
    word % 2 == 1
}

// A write to the register at a place; a PAR and a PDR go by the page number.
#[tactic(auto, unfolding(crate::specs::Places::place_verdict))]
fn judge_place(store: &Store, place: usize, value: u16) -> Option<Reason>
    ensures { result ≡ place_verdict store.now place value }
{
    if place == SR3 {
        return Some(Reason::WritesSr3);
    }
    if !left_on(store[SR0], place, value) {
        return Some(Reason::RelocationOff);
    }
    match place {
        0..48 => judge_par(store[48 + place], store[place], value),
        48..96 => judge_pdr(store[place], value),
        _ => None,
    }
}

// The first premise that a step breaks; a refused event breaks none.
#[tactic(auto, using(crate::proofs::Writes::write_nowhere, crate::proofs::Writes::write_somewhere, crate::proofs::Permitted::quiet, crate::proofs::Permitted::init_breaks))]
fn judge(store: &Store, e: Event) -> Option<Reason>
    ensures { result ≡ broken_by store.now e }
{
    match e {
        Event::Write { address, value } => {
            let place = decode::register_at(address)?;
            judge_place(store, place, value)
        }
        Event::Init => Some(Reason::Init),
        Event::Refer(_)
        | Event::Read { .. }
        | Event::Instruction { .. }
        | Event::Interrupt { .. }
        | Event::Change { .. } => None,
    }
}

// The first premise of demand 3 that a step from this store breaks, none where it is permitted; refused by 1.
#[tactic(auto, unfolding(crate::specs::Verdicts::verdict_of))]
pub fn widens(s: &[u16], e: Event) -> Result<Option<Reason>, Refusal>
    ensures { result ≡ verdict_of s.now e }
{
    let store = <&Store>::try_from(s).map_err(|_| Refusal::Store)?;
    Ok(judge(store, e))
}
