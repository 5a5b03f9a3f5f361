// A recording's records, from bytes to events (01, "Recordings"): a cursor by value over the lent bytes.

#![tactic(auto)]

ghost use Rattle.std.specs.Prelude.{◌≡◌, ◌+◌, ◌≤◌, ◌<◌, length};
ghost use Rattle.records.specs.Bytes.{low_first, signed};
ghost use Rattle.records.specs.Kinds.{kind_number, kind_of, body_of};
ghost use Rattle.records.specs.Records.{reference_at, change_at, event_of, record_at};

use rules::{Event, Reference, Refusal};

// A place in a recording.
#[derive(Clone, Copy, Debug, PartialEq, Eq)]
pub struct Cursor {
    pub at: usize,
}

// What stands at a cursor: a whole record, its event and the cursor past it; nothing; or a refusal, for an unknown kind (11) or a
// record cut short (12).
pub type Found = Result<Option<(Event, Cursor)>, Refusal>;

// The kinds of record.
#[derive(Clone, Copy, Debug, PartialEq, Eq)]
enum Kind {
    Reference,
    Read,
    Write,
    Instruction,
    Interrupt,
    Change,
    Init,
}

// The kind of a number; 11 where there is none.
impl TryFrom<u8> for Kind {
    type Error = Refusal;

    ghost try_from_gives = { λ number kind. kind ≡ kind_of number };

    #[tactic(auto, unfolding(crate::specs::Kinds::kind_of))]
    fn try_from(number: u8) -> Result<Kind, Refusal> {
        match number {
            1 => Ok(Kind::Reference),
            2 => Ok(Kind::Read),
            3 => Ok(Kind::Write),
            4 => Ok(Kind::Instruction),
            5 => Ok(Kind::Interrupt),
            6 => Ok(Kind::Change),
            7 => Ok(Kind::Init),
            _ => Err(Refusal::Kind),
        }
    }
}

impl Kind {
    // How many bytes its body has.
    fn body(self) -> usize
        ensures { result ≡ body_of (kind_number self) }
    {
        match self {
            Kind::Reference => 6,
            Kind::Read => 3,
            Kind::Write => 5,
            Kind::Instruction => 2,
            Kind::Interrupt => 2,
            Kind::Change => 2,
            Kind::Init => 0,
        }
    }

    // Its event, with the body from a place on.
    #[tactic(auto, unfolding(crate::specs::Records::event_of))]
    fn event(self, s: &[u8], at: usize) -> Event
        requires { at + body_of (kind_number self) ≤ length s.now }
        ensures { result ≡ event_of (kind_number self) s.now at }
    {
        match self {
            Kind::Reference => Event::Refer(reference_at(s, at)),
            Kind::Read => Event::Read {
                address: address_at(s, at),
            },
            Kind::Write => Event::Write {
                address: address_at(s, at),
                value: word_at(s, at + 3),
            },
            Kind::Instruction => Event::Instruction { va: word_at(s, at) },
            Kind::Interrupt => Event::Interrupt {
                vector: word_at(s, at),
            },
            Kind::Change => change_at(s, at),
            Kind::Init => Event::Init,
        }
    }
}

// a number in two bytes, low byte first
fn word_at(s: &[u8], at: usize) -> u16
    requires { at + 2 ≤ length s.now }
    ensures { result ≡ low_first 2 s.now at }
{
    u16::from_le_bytes([s[at], s[at + 1]])
}

// a number in three bytes, low byte first
fn address_at(s: &[u8], at: usize) -> u32
    requires { at + 3 ≤ length s.now }
    ensures { result ≡ low_first 3 s.now at }
{
    u32::from_le_bytes([s[at], s[at + 1], s[at + 2], 0])
}

// kind 1: mode, space, access, phase, VA
fn reference_at(s: &[u8], at: usize) -> Reference
    requires { at + 6 ≤ length s.now }
    ensures { result ≡ reference_at s.now at }
{
    Reference {
        mode: u32::from(s[at]),
        space: u32::from(s[at + 1]),
        access: u32::from(s[at + 2]),
        phase: u32::from(s[at + 3]),
        va: word_at(s, at + 4),
    }
}

// kind 6: register, and amount, a two's complement byte
fn change_at(s: &[u8], at: usize) -> Event
    requires { at + 2 ≤ length s.now }
    ensures { result ≡ change_at s.now at }
{
    Event::Change {
        register: u32::from(s[at]),
        amount: i32::from(s[at + 1].cast_signed()),
    }
}

impl Cursor {
    #[tactic(auto, using(crate::proofs::Numbers::unknown_tells), unfolding(crate::specs::Records::record_at))]
    pub fn read(self, s: &[u8]) -> Found
        ensures { result ≡ record_at s.now self.at }
    {
        let at = self.at;
        let Some(&number) = s.get(at) else {
            return Ok(None);
        };
        let kind = Kind::try_from(number)?;
        let start = at + 1;
        let body = kind.body();
        if s.len() - start < body {
            return Err(Refusal::Cut);
        }
        let event = kind.event(s, start);
        Ok(Some((event, Cursor { at: start + body })))
    }
}
