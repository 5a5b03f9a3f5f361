// What the words of one page say of a reference: rules 4 to 9, by value.

#![tactic(auto)]

ghost use Rattle.std.specs.Prelude.{◌≡◌, ◌||◌, cond, Ok};
ghost use Rattle.rules.specs.Paper.{paper};
ghost use Rattle.rules.specs.Keys.{key_of, right_of};
ghost use Rattle.rules.specs.Words.{frozen as is_frozen};
ghost use Rattle.rules.specs.References.{marks_of, abort_flags, sr0_after};
ghost use Rattle.rules.specs.declared.Answer.TheVariants.{Aborted};
ghost use Rattle.ruling.specs.Rulings.{ruling_of};

use rules::{Answer, Right};

// A page as a reference finds it: its place among the 48, and its two words.
#[derive(Clone, Copy, Debug, PartialEq, Eq)]
pub struct Page {
    pub place: u8,
    pub par: u16,
    pub pdr: u16,
}

// The answer, and the page's PDR and SR0 afterwards.
#[derive(Clone, Copy, Debug, PartialEq, Eq)]
pub struct Ruling {
    pub answer: Answer,
    pub pdr: u16,
    pub sr0: u16,
}

const NONE: Right = Right {
    read: false,
    write: false,
    readtrap: false,
    writetrap: false,
};

const READ: Right = Right { read: true, ..NONE };

const READ_WRITE: Right = Right {
    write: true,
    ..READ
};

// Table 2-2: each key's rights, and the accesses on which its trap condition holds.
const KEYS: [Right; 8] = [
    NONE,
    Right {
        readtrap: true,
        ..READ
    },
    READ,
    NONE,
    Right {
        readtrap: true,
        writetrap: true,
        ..READ_WRITE
    },
    Right {
        writetrap: true,
        ..READ_WRITE
    },
    READ_WRITE,
    NONE,
];

// What the key of a PDR gives.
pub fn right_of(pdr: u16) -> Right
    ensures { result ≡ right_of (key_of pdr) }
{
    let key = usize::from(pdr % 8);
    KEYS[key]
}

// rule 9: any of SR0 bits 15:13 is set
pub fn frozen(sr0: u16) -> bool
    ensures { result ≡ is_frozen sr0 }
{
    sr0 / 8192 % 8 != 0
}

// rule 6: the trap condition
fn condition(right: Right, write: bool) -> bool
    ensures { result ≡ cond write right.writetrap right.readtrap }
{
    if write {
        right.writetrap
    } else {
        right.readtrap
    }
}

// rule 7: A and W as they are to be set
#[tactic(auto, using(crate::proofs::Bits::byte_bit))]
fn marks(byte: u32, a: bool, w: bool) -> u16
    ensures { result ≡ marks_of byte a w }
{
    if decode::in_registers(byte) {
        return 0;
    }
    u16::from(a) * 0o200 + u16::from(w) * 0o100
}

// rules 8 and 9: SR0 with flags added and, if it was not frozen, bits 7:1 loaded
pub fn sr0_after(sr0: u16, flags: u16, loaded: u16) -> u16
    ensures { result ≡ sr0_after sr0 flags loaded }
{
    if flags == 0 {
        return sr0;
    }
    if frozen(sr0) {
        return sr0 | flags;
    }
    (sr0 & 0o177401) | loaded | flags
}

// rule 4: what a reference is aborted by
#[derive(Clone, Copy, Debug, PartialEq, Eq)]
pub struct Flags {
    pub nonresident: bool,
    pub length: bool,
    pub readonly: bool,
}

impl Flags {
    fn any(self) -> bool
        ensures { result ≡ (self.nonresident || self.length || self.readonly) }
    {
        self.nonresident | self.length | self.readonly
    }

    // rule 8: as they stand in SR0
    #[tactic(auto, using(crate::proofs::Bits::byte_bit))]
    pub fn bits(self) -> u16
        ensures { result ≡ abort_flags self.nonresident self.length self.readonly }
    {
        u16::from(self.nonresident) * 0o100000
            + u16::from(self.length) * 0o40000
            + u16::from(self.readonly) * 0o20000
    }
}

// The abort with these flags.
impl From<Flags> for Answer {
    ghost from_gives = { λ f a. a ≡ Aborted f.nonresident f.length f.readonly };

    fn from(flags: Flags) -> Answer {
        Answer::Aborted {
            nonresident: flags.nonresident,
            length: flags.length,
            readonly: flags.readonly,
        }
    }
}

// Rules 4 to 9 for a page, given SR0 and what bits 7:1 of it would be loaded with.
pub fn rule(page: Page, sr0: u16, write: bool, loaded: u16, va: u16) -> Ruling
    ensures { (paper (Ok result.answer), (result.pdr, result.sr0)) ≡ ruling_of page.place page.par page.pdr sr0 write loaded va }
{
    let right = right_of(page.pdr);
    let flags = Flags {
        nonresident: !right.read,
        length: page::length_error(page.pdr, page::block_of(va)),
        readonly: write & (right.read & !right.write),
    };
    if flags.any() {
        return Ruling {
            answer: Answer::from(flags),
            pdr: page.pdr,
            sr0: sr0_after(sr0, flags.bits(), loaded),
        };
    }
    let byte = page::byte_of(page.par, va);
    let a = condition(right, write);
    let trap = a & (sr0 / 512 % 2 == 1);
    Ruling {
        answer: Answer::Granted {
            byte,
            trap,
            served: Some(page.place),
        },
        pdr: page.pdr | marks(byte, a, write),
        sr0: sr0_after(sr0, u16::from(trap) * 0o10000, loaded),
    }
}
