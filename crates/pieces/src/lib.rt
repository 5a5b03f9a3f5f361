// A recording that comes in pieces (request E4): the state between two pieces, and the records of the bytes so far.

#![tactic(auto)]

ghost use Rattle.std.specs.Prelude.{◌≡◌, ◌++◌, ◌+◌, ◌<◌, length, drop};
ghost use Rattle.records.specs.Records.{record_at};
ghost use Rattle.pieces.specs.Limit.{ending, seen_at};
ghost use Rattle.pieces.specs.Held.{bytes_of, held_of};
ghost use Rattle.pieces.specs.Begun.{fresh as fresh_of, inside as inside_of, beyond as beyond_of, landed};
ghost use Rattle.pieces.specs.Windows.{front as front_of, back as back_of};
ghost use Rattle.pieces.specs.Moved.{moved as moved_of, end_of};

use records::{Cursor, Found};
use rules::Refusal;

// A few bytes by value: the first `count` of them. The count may be any number, since a caller in C lends it.
#[derive(Clone, Copy)]
pub struct Held {
    pub bytes: [u8; 7],
    pub count: usize,
}

// The state between pieces: the bytes of a begun record, how many bytes came before them, and whether the run is over. All three are
// plain, since C lends any of them with any others.
#[derive(Clone, Copy)]
pub struct Begun {
    pub held: Held,
    pub at: usize,
    pub over: bool,
}

// How far a piece was taken: the state then, and how many of its bytes are taken.
#[derive(Clone, Copy)]
pub struct Reached {
    pub begun: Begun,
    pub taken: usize,
}

// How the records of a piece were gone through, up to a place.
#[derive(Clone, Copy)]
pub enum How {
    // The line of the record there does not fit.
    Full,
    // No whole record stands there.
    Spent,
    // The record there is refused, and the run stops.
    Stopped,
}

// The bytes inside the limit, those held and those of the piece read as one; whether there are others, and whether they are the last.
#[derive(Clone, Copy)]
pub struct Seen<'a> {
    pub front: &'a [u8],
    pub back: &'a [u8],
    pub beyond: bool,
    pub last: bool,
}

const LIMIT: usize = 16_777_216;

const NONE: Held = Held {
    bytes: [0; 7],
    count: 0,
};

impl Held {
    // the bytes held
    fn bytes(&self) -> &[u8]
        ensures { result.now ≡ bytes_of self.now }
    {
        &self.bytes[..self.count.min(self.bytes.len())]
    }

    // the first seven bytes of two lent parts from a place on
    fn first(front: &[u8], back: &[u8], at: usize) -> Held
        ensures { result ≡ held_of (drop at (front.now ++ back.now)) }
    {
        let left = at.saturating_sub(front.len());
        let front = &front[at.min(front.len())..];
        let back = &back[left.min(back.len())..];
        let mut bytes = [0; 7];
        let seam = front.len().min(bytes.len());
        let count = seam + back.len().min(bytes.len() - seam);
        bytes[..seam].copy_from_slice(&front[..seam]);
        bytes[seam..count].copy_from_slice(&back[..count - seam]);
        Held { bytes, count }
    }
}

// what was found, so many bytes further on
fn moved(found: Found, by: usize) -> Found
    requires { by + end_of found < 18446744073709551616 }
    ensures { result ≡ moved_of by found }
{
    match found {
        Ok(Some((event, next))) => Ok(Some((event, Cursor { at: by + next.at }))),
        other => other,
    }
}

impl<'a> Seen<'a> {
    // the record at a place of the front: its bytes may go on in the back
    #[tactic(auto, using(crate::proofs::Across::across, crate::proofs::Across::end_within, crate::proofs::Gathered::held_bytes))]
    fn read_across(self, at: usize) -> Found
        requires { at < length self.front.now }
        ensures { result ≡ record_at (self.entry.front.now ++ self.entry.back.now) at }
    {
        let few = Held::first(self.front, self.back, at);
        moved(Cursor { at: 0 }.read(few.bytes()), at)
    }

    // the record at a place of both parts
    #[tactic(auto, using(crate::proofs::Across::behind, crate::proofs::Across::end_within))]
    fn read_joined(self, at: usize) -> Found
        ensures { result ≡ record_at (self.entry.front.now ++ self.entry.back.now) at }
    {
        let n = self.front.len();
        if at < n {
            return self.read_across(at);
        }
        moved(Cursor { at: at - n }.read(self.back), n)
    }

    // What was found, as it stands at the end of these bytes: the end and 12 become 13 where bytes lie beyond the limit; else 12 stays
    // among the last bytes, and waits for more among others.
    fn end(self, found: Found) -> Found
        ensures { result ≡ ending self.entry.beyond self.entry.last found }
    {
        match found {
            Ok(None) | Err(Refusal::Cut) if self.beyond => Err(Refusal::Long),
            Err(Refusal::Cut) if !self.last => Ok(None),
            other => other,
        }
    }

    // What stands at a place.
    pub fn read(self, at: usize) -> Found
        ensures { result ≡ seen_at self.entry.beyond self.entry.last (self.entry.front.now ++ self.entry.back.now) at }
    {
        self.end(self.read_joined(at))
    }
}

// Before the first byte of a recording.
#[tactic(auto, unfolding(crate::specs::Held::held_of))]
pub fn fresh() -> Begun
    ensures { result ≡ fresh_of }
{
    Begun {
        held: NONE,
        at: 0,
        over: false,
    }
}

// The bytes inside the limit, of those held and of a piece.
pub fn inside<'a>(begun: &'a Begun, piece: &'a [u8], last: bool) -> Seen<'a>
    ensures parts { (result.front.now ≡ front_of begun.now) × (result.back.now ≡ back_of begun.now piece.now) }
    ensures joined { result.front.now ++ result.back.now ≡ inside_of begun.now piece.now }
    ensures ends { (result.beyond ≡ beyond_of begun.now piece.now) × (result.last ≡ last) }
{
    let held = begun.held.bytes();
    let allowed = LIMIT.saturating_sub(begun.at);
    let front = &held[..held.len().min(allowed)];
    let back = &piece[..piece.len().min(allowed - front.len())];
    Seen {
        front,
        back,
        beyond: front.len() < held.len() || back.len() < piece.len(),
        last,
    }
}

// How far a piece was taken, where its records were gone through up to a place: the place moves on, no further than the limit. A piece
// and whether it is the last come as two, here and above, as C gives them.
#[tactic(auto, unfolding(crate::specs::Begun::landed, crate::specs::Held::held_of))]
pub fn land(begun: Begun, piece: &[u8], last: bool, at: usize, how: How) -> Reached
    ensures { result ≡ landed begun piece.now last at how }
{
    let held = begun.held.bytes();
    let (held, over, taken) = match how {
        How::Full => (
            Held::first(held, b"", at),
            false,
            at.saturating_sub(held.len()),
        ),
        How::Spent if !last => (Held::first(held, piece, at), false, piece.len()),
        How::Spent | How::Stopped => (NONE, true, piece.len()),
    };
    Reached {
        begun: Begun {
            held,
            at: begun.at + at.min(LIMIT.saturating_sub(begun.at)),
            over,
        },
        taken,
    }
}
