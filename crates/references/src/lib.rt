// A reference: rules 1 to 3 over the store; rules 4 to 9 are `ruling`'s.

#![tactic(auto)]

ghost use Rattle.std.specs.Prelude.{◌≡◌, Ok};
ghost use Rattle.rules.specs.Paper.{paper};
ghost use Rattle.rules.specs.Words.{bit};
ghost use Rattle.rules.specs.References.{flat_byte, details as details_of, referred};
ghost use Rattle.rules.specs.Step.{step};
ghost use Rattle.rules.specs.declared.Event.TheVariants.{Refer};
ghost use Rattle.references.specs.Accepted.{numbers, number_of, flag_of, accepted_of};

use rules::{Answer, Mode, Reference, Refusal, SR0, SR3, Store, WORDS};
use ruling::{Flags, Page};

// A reference whose numbers are accepted: its mode, none for mode 2; in the data space; a write; in an interrupt or trap sequence.
#[derive(Clone, Copy)]
struct Accepted {
    mode: Option<Mode>,
    data_space: bool,
    write: bool,
    phase: bool,
    va: u16,
}

// 0 or 1, or the refusal.
fn flag(number: u32, refusal: Refusal) -> Result<bool, Refusal>
    ensures { result ≡ flag_of number refusal }
{
    if 1 < number {
        Err(refusal)
    } else {
        Ok(number == 1)
    }
}

impl TryFrom<Reference> for Accepted {
    type Error = Refusal;

    ghost try_from_gives = { λ r a. a ≡ accepted_of r };

    #[tactic(auto, unfolding(crate::specs::Accepted::accepted_of))]
    fn try_from(r: Reference) -> Result<Accepted, Refusal> {
        let mode = Mode::of(r.mode)?;
        let data_space = flag(r.space, Refusal::Space)?;
        let write = flag(r.access, Refusal::Access)?;
        let phase = flag(r.phase, Refusal::Phase)?;
        Ok(Accepted {
            mode,
            data_space,
            write,
            phase,
            va: r.va,
        })
    }
}

// rule 1: the byte with relocation off
fn flat(va: u16) -> u32
    ensures { result ≡ flat_byte va }
{
    if va < 0o160000 {
        u32::from(va)
    } else {
        u32::from(va) + 0o600000
    }
}

impl Accepted {
    // rule 9: what bits 7:1 of SR0 are loaded with
    #[tactic(auto, using(ruling::proofs::Bits::byte_bit))]
    fn details(self, d: bool) -> u16
        ensures { result ≡ details_of (bit self.phase) (number_of self.mode) d self.va }
    {
        let mode = match self.mode {
            Some(mode) => u16::from(mode),
            None => 2,
        };
        u16::from(self.phase) * 128 + mode * 32 + u16::from(d) * 16 + page::page_of(self.va) * 2
    }

    // Rules 1 to 3, and then the page found.
    #[tactic(auto, unfolding(rules::specs::References::referred, rules::specs::References::illegal_mode))]
    fn refer(self, s: &mut Store) -> Answer
        ensures { (paper (Ok result), s.new) ≡ referred s.old (numbers self) }
    {
        if s[SR0] % 2 == 0 {
            return Answer::Granted {
                byte: flat(self.va),
                trap: false,
                served: None,
            };
        }
        let Some(mode) = self.mode else {
            let flags = Flags {
                nonresident: true,
                length: false,
                readonly: false,
            };
            s[SR0] = ruling::sr0_after(s[SR0], flags.bits(), self.details(false));
            return Answer::from(flags);
        };
        let d = self.data_space & mode.enables_d(s[SR3]);
        let p = mode.first_page() + 8 * usize::from(d) + usize::from(page::page_of(self.va));
        let pdr = 48 + p;
        let page = Page {
            place: p as u8,
            par: s[p],
            pdr: s[pdr],
        };
        let ruled = ruling::rule(page, s[SR0], self.write, self.details(d), self.va);
        s[pdr] = ruled.pdr;
        s[SR0] = ruled.sr0;
        ruled.answer
    }
}

// A reference: refused by 1 to 5, or answered by rules 1 to 9.
#[tactic(auto, using(crate::proofs::Refusing::refer_step))]
pub fn reference(s: &mut [u16], r: Reference) -> Result<Answer, Refusal>
    ensures { (paper result, s.new) ≡ step s.old (Refer r) }
{
    let store = s.as_mut_array::<WORDS>().ok_or(Refusal::Store)?;
    let accepted = Accepted::try_from(r)?;
    Ok(accepted.refer(store))
}
