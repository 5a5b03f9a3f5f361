// The types of document 01. What they mean is in specs/.

#![tactic(auto)]

ghost use Rattle.std.specs.Prelude.{◌≡◌};
ghost use Rattle.rules.specs.Paper.{number as number_of};

mod modes;

pub use modes::Mode;

// The words of a store.
pub const WORDS: usize = 100;

// A store of the right length: 48 PARs, their PDRs in the same order, SR0 to SR3. One array of words, and a register by its index, as 01
// has it and C lends it.
pub type Store = [u16; WORDS];

// Where the four status words stand in it.
pub const SR0: usize = 96;

pub const SR1: usize = 97;

pub const SR2: usize = 98;

pub const SR3: usize = 99;

// A reference (01, "A reference"). The numbers are as the caller gives them, and no enum: 01 takes any, and refuses a bad one by its own.
#[derive(Clone, Copy, Debug, PartialEq, Eq)]
pub struct Reference {
    pub mode: u32,
    pub space: u32,
    pub access: u32,
    pub phase: u32,
    pub va: u16,
}

// Everything that can happen to the unit.
#[derive(Clone, Copy, Debug, PartialEq, Eq)]
pub enum Event {
    Refer(Reference),
    Read { address: u32 },
    Write { address: u32, value: u16 },
    Instruction { va: u16 },
    Interrupt { vector: u16 },
    Change { register: u32, amount: i32 },
    Init,
}

// What is refused, in the order of 01's table, 1 to 13; then 14 of request E2.
#[derive(Clone, Copy, Debug, PartialEq, Eq)]
pub enum Refusal {
    Store,
    Mode,
    Space,
    Access,
    Phase,
    High,
    Odd,
    NoRegister,
    BadChange,
    Full,
    Kind,
    Cut,
    Long,
    Room,
}

// A refusal's number.
impl From<Refusal> for u32 {
    ghost from_gives = { λ r n. n ≡ number_of r };

    fn from(r: Refusal) -> u32 {
        match r {
            Refusal::Store => 1,
            Refusal::Mode => 2,
            Refusal::Space => 3,
            Refusal::Access => 4,
            Refusal::Phase => 5,
            Refusal::High => 6,
            Refusal::Odd => 7,
            Refusal::NoRegister => 8,
            Refusal::BadChange => 9,
            Refusal::Full => 10,
            Refusal::Kind => 11,
            Refusal::Cut => 12,
            Refusal::Long => 13,
            Refusal::Room => 14,
        }
    }
}

// What the unit answers to an event that is not refused. A grant says which page let the reference through (request E1): its place
// among the 48, counted as in the store; none where rule 1 grants.
#[derive(Clone, Copy, Debug, PartialEq, Eq)]
pub enum Answer {
    Granted {
        byte: u32,
        trap: bool,
        served: Option<u8>,
    },
    Aborted {
        nonresident: bool,
        length: bool,
        readonly: bool,
    },
    Word(u16),
    Done,
}

// What a page's key allows, and on which access its trap condition holds (Table 2-2).
#[derive(Clone, Copy, Debug, PartialEq, Eq)]
pub struct Right {
    pub read: bool,
    pub write: bool,
    pub readtrap: bool,
    pub writetrap: bool,
}
