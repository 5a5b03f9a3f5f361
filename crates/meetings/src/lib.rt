// Whether the modes are apart in a lent store's map: one pass over the pages they may use, in store order. It keeps for each
// block its owner, the lowest page that reaches it, and the lowest block so far where a page of another mode met an owner.

#![tactic(auto)]

ghost use Rattle.std.specs.Prelude.{◌≡◌, ◌<◌, ◌≤◌};
ghost use Rattle.rules.specs.Modes.{mode_number};
ghost use Rattle.meetings.specs.Parting.{parting_of};
ghost use Rattle.meetings.specs.Pass.{first_block, end_block, met, sighted, page_pass, mode_pass, whole_pass};

use rules::{Mode, Refusal, SR3, Store};
use ruling::Page;
use std::ops::Range;

// A block that two modes reach, and a page of each, by its place among the 48.
#[derive(Clone, Copy, Debug, PartialEq, Eq)]
pub struct Meeting {
    pub block: u16,
    pub first: u8,
    pub second: u8,
}

// The blocks of memory.
const BLOCKS: usize = 4096;

// What the pages so far showed: each block's owner, if it has one, and the lowest meeting.
#[derive(Drop)]
struct Pass {
    owners: [Option<u8>; BLOCKS],
    lowest: Option<Meeting>,
}

// The allowed blocks of a page: 0 to the length field (ED 0), or the length field to 127 (ED 1).
fn allowed(pdr: u16) -> Range<u16>
    ensures { (result.start ≡ first_block pdr) × (result.end ≡ end_block pdr) × (result.start ≤ result.end) × (result.end ≤ 128) }
{
    let length = pdr / 256 % 128;
    if pdr / 8 % 2 == 0 {
        0..length + 1
    } else {
        length..128
    }
}

impl Pass {
    // A page is seen to reach a block: it becomes its owner, or meets one of its own mode, or one of another.
    #[tactic(auto, unfolding(crate::specs::Pass::sighted))]
    fn sight(&mut self, page: u8, block: u16)
        requires { block < 4096 }
        ensures { self.new ≡ sighted page block self.old }
    {
        let at = usize::from(block);
        match self.owners[at] {
            None => self.owners[at] = Some(page),
            Some(owner) => {
                if owner / 16 != page / 16 {
                    self.meet(Meeting {
                        block,
                        first: owner,
                        second: page,
                    });
                }
            }
        }
    }

    // A meeting of two modes: the lowest, unless one at this block or below it came before.
    #[tactic(auto, unfolding(crate::specs::Pass::met))]
    fn meet(&mut self, meeting: Meeting)
        ensures { self.new ≡ met meeting self.old }
    {
        match self.lowest {
            Some(lowest) if lowest.block <= meeting.block => {}
            _ => self.lowest = Some(meeting),
        }
    }

    // A page: each of its allowed blocks, if it is resident.
    #[tactic(auto, using(crate::proofs::Turns::blocks_next, crate::proofs::Turns::blocks_over), unfolding(crate::specs::Pass::page_pass, rules::specs::Keys::right_of))]
    fn sight_page(&mut self, page: Page)
        ensures { self.new ≡ page_pass page.place page.par page.pdr self.old }
    {
        if !ruling::right_of(page.pdr).read {
            return;
        }
        let blocks = allowed(page.pdr);
        // by the two ends, from which the invariant counts the blocks that are left
        for b in blocks.start..blocks.end {
            self.sight(page.place, (page.par % 4096 + b) % 4096);
        }
    }

    // The pages that a mode may use.
    #[tactic(auto, using(crate::proofs::Turns::pages_next, crate::proofs::Turns::pages_over))]
    fn sight_mode(&mut self, store: &Store, mode: Mode)
        ensures { self.new ≡ mode_pass store.now (mode_number mode) self.old }
    {
        let first = mode.first_page();
        let end = first + reach::pages(mode, store[SR3]);
        for page in first..end {
            self.sight_page(Page {
                place: page as u8,
                par: store[page],
                pdr: store[48 + page],
            });
        }
    }

    // The pages of every mode.
    #[tactic(auto, using(crate::proofs::Modes::modes_first, crate::proofs::Modes::modes_next, crate::proofs::Modes::modes_over))]
    fn over(store: &Store) -> Pass
        ensures { result ≡ whole_pass store.now }
    {
        let mut pass = Pass {
            owners: [None; BLOCKS],
            lowest: None,
        };
        for mode in [Mode::Kernel, Mode::Supervisor, Mode::User] {
            pass.sight_mode(store, mode);
        }
        pass
    }
}

// Whether the modes are apart, none, or the lowest block that two of them share; refused by 1.
#[tactic(auto, unfolding(crate::specs::Parting::parting_of))]
pub fn apart(s: &[u16]) -> Result<Option<Meeting>, Refusal>
    ensures { result ≡ parting_of s.now }
{
    let store = <&Store>::try_from(s).map_err(|_| Refusal::Store)?;
    Ok(Pass::over(store).lowest)
}
