// Register read and register write: the place is found once.

#![tactic(auto)]

ghost use Rattle.std.specs.Prelude.{◌≡◌};
ghost use Rattle.rules.specs.Paper.{paper};
ghost use Rattle.rules.specs.Words.{implemented as implemented_of};
ghost use Rattle.rules.specs.Registers.{written_at};
ghost use Rattle.rules.specs.Step.{step};
ghost use Rattle.rules.specs.declared.Event.TheVariants.{Read, Write};
ghost use Rattle.registers.specs.Found.{found_of};
ghost use Rattle.registers.specs.Taken.{taken_of};

use rules::{Answer, Refusal, SR0, SR3, Store, WORDS};

// The register at an address, or the lowest of 6, 7 and 8.
#[tactic(auto, using(crate::proofs::Seeking::or_none), unfolding(crate::specs::Found::found_of))]
fn find(address: u32) -> Result<usize, Refusal>
    ensures { result ≡ found_of address }
{
    if 0o777777 < address {
        return Err(Refusal::High);
    }
    if address % 2 == 1 {
        return Err(Refusal::Odd);
    }
    decode::register_at(address).ok_or(Refusal::NoRegister)
}

// The bits that the register at a place implements.
fn implemented(place: usize) -> u16
    ensures { result ≡ implemented_of place }
{
    match place {
        // one test of a page's place, which needs no branch of its own
        0..96 => if place < 48 { 0o007777 } else { 0o077717 },
        SR0 => 0o171777,
        SR3 => 0o000017,
        _ => 0o177777,
    }
}

// The bits that a PAR or a PDR takes.
fn taken(place: usize) -> u16
    ensures { result ≡ taken_of place }
{
    if place < 48 { 0o007777 } else { 0o077417 }
}

// A write to the register at a place. A PAR and a PDR go one path: the word, and then A and W of the page cleared. SR1 and SR2 stay.
#[tactic(auto, using(crate::proofs::OnePath::one_path), unfolding(rules::specs::Registers::written_at))]
fn write_at(s: &mut Store, place: usize, value: u16)
    ensures { s.new ≡ written_at s.old place value }
{
    match place {
        0..96 => {
            let pdr = 48 + place % 48;
            s[place] = value & taken(place);
            s[pdr] &= 0o177477;
        }
        SR0 => s[SR0] = (value & 0o171401) | (s[SR0] & 0o000376),
        SR3 => s[SR3] = value & 0o000017,
        _ => {}
    }
}

#[tactic(auto, using(crate::proofs::Seeking::read_step, crate::proofs::Seeking::found_place))]
pub fn read_register(s: &[u16], address: u32) -> Result<Answer, Refusal>
    ensures { (paper result, s.now) ≡ step s.now (Read address) }
{
    let store = <&Store>::try_from(s).map_err(|_| Refusal::Store)?;
    let place = find(address)?;
    Ok(Answer::Word(store[place] & implemented(place)))
}

#[tactic(auto, using(crate::proofs::Seeking::write_step))]
pub fn write_register(s: &mut [u16], address: u32, value: u16) -> Result<Answer, Refusal>
    ensures { (paper result, s.new) ≡ step s.old (Write address value) }
{
    let store = s.as_mut_array::<WORDS>().ok_or(Refusal::Store)?;
    let place = find(address)?;
    write_at(store, place, value);
    Ok(Answer::Done)
}
