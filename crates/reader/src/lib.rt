// A reader that holds the lent recording and its place in it (request E2; 01, "Which places take which form"): thin functions
// over the cursor form, and two plain ones above them for callers.

#![tactic(auto)]

ghost use Rattle.std.specs.Prelude.{◌≡◌};
ghost use Rattle.records.specs.Records.{record_at};
ghost use Rattle.reader.specs.Reading.{place_after as place_after_of};

use records::{Cursor, Found};

#[derive(Clone, Copy)]
pub struct Reader<'a> {
    pub recording: &'a [u8],
    pub at: usize,
}

// What stands at a place of a recording.
fn found_at(recording: &[u8], at: usize) -> Found
    ensures stands { result ≡ record_at recording.now at }
{
    Cursor { at }.read(recording)
}

// The place past the record at a place; the same place where no whole record stands.
#[tactic(auto, unfolding(crate::specs::Reading::place_after))]
fn place_after(recording: &[u8], at: usize) -> usize
    ensures { result ≡ place_after_of recording.now at }
{
    match found_at(recording, at) {
        Ok(Some((_, next))) => next.at,
        Ok(None) | Err(_) => at,
    }
}

// A reader at a place of a recording.
pub fn new<'a>(recording: &'a [u8], at: usize) -> Reader<'a>
    ensures { (result.recording ≡ recording.entry) × (result.at ≡ at) }
{
    Reader { recording, at }
}

// Its place.
pub fn place<'a>(r: Reader<'a>) -> usize
    ensures { result ≡ r.entry.at }
{
    r.at
}

// What stands at its place.
pub fn found<'a>(r: Reader<'a>) -> Found
    ensures { result ≡ record_at r.entry.recording.now r.entry.at }
{
    found_at(r.recording, r.at)
}

// The reader past the record at its place; where no whole record stands, it stays.
pub fn next<'a>(r: Reader<'a>) -> Reader<'a>
    ensures { (result.recording ≡ r.entry.recording) × (result.at ≡ place_after_of r.entry.recording.now r.entry.at) }
{
    Reader {
        at: place_after(r.recording, r.at),
        ..r
    }
}

// What stands at a place of a recording: an event and the place past it, the end, or a refusal by 11 or 12.
pub fn read(recording: &[u8], at: usize) -> Found
    ensures { result ≡ record_at recording.now at }
{
    found(new(recording, at))
}

// The place past the record at a place; the same place where no whole record stands.
pub fn after(recording: &[u8], at: usize) -> usize
    ensures { result ≡ place_after_of recording.now at }
{
    place(next(new(recording, at)))
}
