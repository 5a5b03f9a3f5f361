// The audit of a recording for demand 3, a piece at a time: from where on it kept the premises, which record broke them
// last, how it ended, and whether the last map keeps the modes apart.

#![tactic(auto)]

ghost use Rattle.std.specs.Prelude.{◌≡◌, ◌++◌, ◌+◌, ◌<◌, length};
ghost use Rattle.rules.specs.Words.{relocates};
ghost use Rattle.pieces.specs.Limit.{seen_from};
ghost use Rattle.pieces.specs.Begun.{judged};
ghost use Rattle.account.specs.Turns.{fresh as fresh_of, tally_after};
ghost use Rattle.account.specs.Surveys.{begins, how_by, trail, surveyed, report_of};

use auditing::Reason;
use meetings::Meeting;
use pieces::{Begun, How, Seen};
use rules::{Refusal, SR0, Store, WORDS};

// What is carried from record to record.
#[derive(Clone, Copy, Debug, PartialEq, Eq)]
pub struct Tally {
    // from which byte on the run kept the premises
    pub kept: Option<usize>,
    // which record broke a premise last, by its first byte, and why
    pub broken: Option<(usize, Reason)>,
}

// What the records of a run tell: the byte where it ended, and how. No record stopped it, or it was stopped by 1, 11, 12 or 13.
#[derive(Clone, Copy, Debug, PartialEq, Eq)]
pub struct Course {
    pub tally: Tally,
    pub at: usize,
    pub ending: Result<(), Refusal>,
}

#[derive(Clone, Copy, Debug, PartialEq, Eq)]
pub struct Report {
    pub course: Course,
    pub map: Result<Option<Meeting>, Refusal>,
}

// What the records so far tell, with the state between two pieces. `begins` has it end well until a record stops it.
#[derive(Clone, Copy)]
pub struct Survey {
    pub begun: Begun,
    pub tally: Tally,
    pub ending: Result<(), Refusal>,
}

// Kept from here on, if relocation is on.
fn fresh(sr0: u16, at: usize) -> Option<usize>
    ensures { result ≡ fresh_of (relocates sr0) at }
{
    if sr0 % 2 == 1 { Some(at) } else { None }
}

impl Tally {
    // One more record, given SR0 after it, the record's first byte and the next one's: a step that is not permitted ends what was
    // kept so far. In place, since a copy at each record takes longer.
    #[tactic(auto, unfolding(crate::specs::Turns::tally_after))]
    fn count(&mut self, verdict: Result<Option<Reason>, Refusal>, sr0: u16, at: usize, next: usize)
        ensures { self.new ≡ tally_after self.old verdict (relocates sr0) at next }
    {
        match verdict {
            Ok(None) => self.kept = self.kept.or(fresh(sr0, next)),
            Ok(Some(reason)) => {
                self.kept = fresh(sr0, next);
                self.broken = Some((at, reason));
            }
            Err(_) => self.kept = fresh(sr0, next),
        }
    }
}

impl Course {
    // how its records were gone through
    fn how(self) -> How
        ensures { result ≡ how_by self.ending }
    {
        match self.ending {
            Ok(()) => How::Spent,
            Err(_) => How::Stopped,
        }
    }
}

// Record by record, to the end of the bytes or to a record that can't be read. `base` is the offset of the first of them, and the
// course's `at` counts from it.
#[tactic(auto, using(crate::proofs::Trails::trail_end, crate::proofs::Trails::trail_refused, crate::proofs::Trails::trail_event, crate::proofs::Trails::trail_advances))]
fn survey_records(s: &mut Store, seen: Seen, base: usize, so_far: Tally) -> Course
    requires { base + length (seen.front.now ++ seen.back.now) < 18446744073709551616 }
    ensures { (result, s.new) ≡ trail base (seen_from seen.entry.beyond seen.entry.last (seen.entry.front.now ++ seen.entry.back.now) 0) 0 so_far s.old }
{
    let mut at = 0;
    let mut tally = so_far;
    let ending = loop {
        match seen.read(at) {
            Ok(Some((event, next))) => {
                let verdict = auditing::widens(s, event);
                let _ = kt11c::apply(s, event);
                tally.count(verdict, s[SR0], base + at, base + next.at);
                at = next.at;
            }
            Ok(None) => break Ok(()),
            Err(refusal) => break Err(refusal),
        }
    };
    Course { tally, at, ending }
}

// Before the first byte of a recording; a store too short to have SR0 is read as 0.
pub fn begin(s: &[u16]) -> Survey
    ensures { result ≡ begins s.now }
{
    let sr0 = s.get(SR0).copied().unwrap_or(0);
    Survey {
        begun: pieces::fresh(),
        tally: Tally {
            kept: fresh(sr0, 0),
            broken: None,
        },
        ending: Ok(()),
    }
}

impl Survey {
    // the course of a piece's records, where the run is not over: 1 is tested first
    #[tactic(auto, unfolding(crate::specs::Surveys::trail))]
    fn survey_piece(self, s: &mut [u16], piece: &[u8], last: bool) -> Course
        ensures { (result, s.new) ≡ trail self.begun.at (judged self.begun piece.now last s.old) 0 self.tally s.old }
    {
        let Some(store) = s.as_mut_array::<WORDS>() else {
            return Course {
                tally: self.tally,
                at: 0,
                ending: Err(Refusal::Store),
            };
        };
        survey_records(
            store,
            pieces::inside(&self.begun, piece, last),
            self.begun.at,
            self.tally,
        )
    }
}

// The audit with a piece of the recording more, and whether it is the last. The store is left as the records so far leave it.
pub fn feed(s: &mut [u16], so_far: Survey, piece: &[u8], last: bool) -> Survey
    ensures { (result, s.new) ≡ surveyed s.old so_far piece.now last }
{
    let begun = so_far.begun;
    if begun.over {
        let reached = pieces::land(begun, piece, true, 0, How::Spent);
        return Survey {
            begun: reached.begun,
            tally: so_far.tally,
            ending: so_far.ending,
        };
    }
    let course = so_far.survey_piece(s, piece, last);
    let reached = pieces::land(begun, piece, last, course.at, course.how());
    Survey {
        begun: reached.begun,
        tally: course.tally,
        ending: course.ending,
    }
}

// The report of an audit that is at its end, from the store as it was left: refused by 1, or the course and the store's map.
#[tactic(auto, unfolding(crate::specs::Surveys::report_of))]
pub fn finish(s: &[u16], survey: Survey) -> Result<Report, Refusal>
    ensures { result ≡ report_of s.now survey }
{
    if s.len() != WORDS {
        return Err(Refusal::Store);
    }
    Ok(Report {
        course: Course {
            tally: survey.tally,
            at: survey.begun.at,
            ending: survey.ending,
        },
        map: meetings::apart(s),
    })
}
