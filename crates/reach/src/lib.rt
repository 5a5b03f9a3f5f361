// Whether a mode reaches a block in a lent store's map: a page reaches it by one of its blocks at most, so each page is asked once.

#![tactic(auto)]

ghost use Rattle.std.specs.Prelude.{◌≡◌, ◌<◌, ◌≤◌};
ghost use Rattle.std.specs.List.{list_any, zip};
ghost use Rattle.rules.specs.Modes.{mode_number};
ghost use Rattle.widening.specs.Reaches.{pages_of as pages_of_mode, reaches};
ghost use Rattle.reach.specs.Reaching.{reaching_of, holds};

use rules::{Mode, Refusal, SR3, Store};

// How many pages SR3 lets a mode use, from its first on: the eight of its I set, and the eight of its D set if SR3 enables it.
pub fn pages(mode: Mode, sr3: u16) -> usize
    ensures { (result ≡ pages_of_mode sr3 (mode_number mode)) × (result ≤ 16) }
{
    if mode.enables_d(sr3) { 16 } else { 8 }
}

// The same by a mode's number, since its promise is for any; eight where no mode has it.
#[tactic(auto, using(rules::proofs::SameNumber::same_number), unfolding(rules::specs::Modes::mode_of))]
pub fn pages_of(sr3: u16, mode: u32) -> usize
    ensures { (result ≡ pages_of_mode sr3 mode) × (result ≤ 16) }
{
    match Mode::of(mode) {
        Ok(Some(mode)) => pages(mode, sr3),
        Ok(None) | Err(_) => 8,
    }
}

// A page's block b that lies in a block of memory is the difference modulo 4096; it is to be allowed.
#[tactic(auto, unfolding(crate::specs::Reaching::holds, rules::specs::Keys::right_of))]
fn page_holds(par: u16, pdr: u16, block: u16) -> bool
    ensures { result ≡ holds par pdr block }
{
    let b = block.wrapping_sub(par) % 4096;
    let right = ruling::right_of(pdr);
    b < 128 && right.read && !page::length_error(pdr, b)
}

// Some page of those with these PARs and PDRs.
fn some_page(pars: &[u16], pdrs: &[u16], block: u16) -> bool
    ensures { result ≡ list_any (λ page. holds page.0 page.1 block) (zip pars.now pdrs.now) }
{
    pars.iter()
        .zip(pdrs)
        .any(|(par, pdr)| page_holds(*par, *pdr, block))
}

// A mode reaches a block of memory.
fn mode_reaches(store: &Store, mode: Mode, block: u16) -> bool
    requires { block < 4096 }
    ensures { result ≡ reaches store.now (mode_number mode) block }
{
    let first = mode.first_page();
    let end = first + pages(mode, store[SR3]);
    some_page(&store[first..end], &store[48 + first..48 + end], block)
}

// Whether a mode reaches a block, or the lowest of 1 and 2.
#[tactic(auto, using(crate::proofs::ByPages::high_none, rules::proofs::SameNumber::same_number), unfolding(crate::specs::Reaching::reaching_of, rules::specs::Modes::mode_of, widening::specs::Reaches::reaches))]
pub fn reaches_block(s: &[u16], mode: u32, block: u32) -> Result<bool, Refusal>
    ensures { result ≡ reaching_of s.now mode block }
{
    let store = <&Store>::try_from(s).map_err(|_| Refusal::Store)?;
    let Some(mode) = Mode::of(mode)? else {
        return Ok(false);
    };
    if 4096 <= block {
        return Ok(false);
    }
    Ok(mode_reaches(store, mode, block as u16))
}
