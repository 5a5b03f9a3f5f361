// A recording replayed from a lent store into a lent output (01, "Recordings"; request E4): a piece at a time, and a piece in several
// feeds where the output is short.

#![tactic(auto)]

ghost use Rattle.std.specs.Prelude.{◌≡◌, ◌≤◌, ◌++◌, length, ltb, cond};
ghost use Rattle.rules.specs.Paper.{X, number};
ghost use Rattle.rules.specs.Step.{step};
ghost use Rattle.lines.specs.Lines.{line_of, longest, placed};
ghost use Rattle.transcript.specs.Feeding.{fed};
ghost use Rattle.recording.specs.Parts.{taken, ended, ahead, going, shown};

use lines::LONGEST;
use pieces::{Begun, How, Seen};
use rules::{Event, Refusal, Store, WORDS};
use transcript::Fed;

// How far a feed went through the records: the place, how it ended there, and how many bytes of the output were written.
#[derive(Clone, Copy)]
struct Stepped {
    at: usize,
    how: How,
    written: usize,
}

// an event, and its line where the line fits: how many bytes were written. An output and the bytes written in it go along as two, here
// and below, since a clause names the output before and after.
fn put_event(s: &mut Store, e: Event, out: &mut [u8], written: usize) -> Option<usize>
    ensures { (s.new ≡ (step s.old e).1) × ((result, out.new) ≡ placed out.old written (line_of (step s.old e).0)) }
{
    let answer = kt11c::apply(s, e);
    lines::put(out, written, answer)
}

// the store is kept aside where the longest line has no room: a copy at each event takes longer
fn keep(s: &Store, spare: &mut Store, room: usize)
    ensures { spare.new ≡ cond (ltb room longest) s.now spare.old }
{
    if room < LONGEST {
        *spare = *s;
    }
}

// the same, but nothing happens where the line does not fit: the store kept aside is given back
fn take_event(
    s: &mut Store,
    e: Event,
    out: &mut [u8],
    written: usize,
    spare: &mut Store,
) -> Option<usize>
    requires { written ≤ length out.old }
    ensures { (result, s.new, out.new) ≡ taken s.old e out.old written }
{
    keep(s, spare, out.len() - written);
    let put = put_event(s, e, out, written);
    if put.is_none() {
        *s = *spare;
    }
    put
}

// a refusal that stops the replay: its line, where it fits
#[tactic(auto, unfolding(crate::specs::Parts::ended))]
fn stop(out: &mut [u8], at: usize, written: usize, refusal: Refusal) -> Stepped
    requires { written ≤ length out.old }
    ensures { (result, out.new) ≡ ended out.old at written (line_of (X (number refusal))) }
{
    match lines::put(out, written, Err(refusal)) {
        None => Stepped {
            at,
            how: How::Full,
            written,
        },
        Some(n) => Stepped {
            at,
            how: How::Stopped,
            written: written + n,
        },
    }
}

// record by record, of the bytes inside the limit, while the next line fits
fn replay_records(s: &mut Store, seen: Seen<'_>, out: &mut [u8]) -> Stepped
    ensures { (result, s.new, out.new) ≡ shown (ahead seen.entry.beyond seen.entry.last (seen.entry.front.now ++ seen.entry.back.now) 0 s.old (length out.old)) out.old }
{
    let mut spare = [0; WORDS];
    let mut at = 0;
    let mut written = 0;
    loop {
        match seen.read(at) {
            Ok(None) => {
                return Stepped {
                    at,
                    how: How::Spent,
                    written,
                };
            }
            Err(refusal) => {
                return stop(out, at, written, refusal);
            }
            Ok(Some((event, next))) => {
                let Some(n) = take_event(s, event, out, written, &mut spare) else {
                    return Stepped {
                        at,
                        how: How::Full,
                        written,
                    };
                };
                written += n;
                at = next.at;
            }
        }
    }
}

// the records of a piece, where the run is not over: 1 is tested first
#[tactic(auto, unfolding(crate::specs::Parts::going))]
fn replay_piece(s: &mut [u16], begun: &Begun, piece: &[u8], last: bool, out: &mut [u8]) -> Stepped
    ensures { (result, s.new, out.new) ≡ shown (going begun.now piece.now last s.old (length out.old)) out.old }
{
    let Some(store) = s.as_mut_array::<WORDS>() else {
        return stop(out, 0, 0, Refusal::Store);
    };
    replay_records(store, pieces::inside(begun, piece, last), out)
}

// One feed of a replay: a piece of the recording after the bytes of a begun record, and whether it is the last. As many whole lines
// as the output holds are written; what is not taken of the piece is for the next feed.
#[tactic(auto, using(crate::proofs::Pieces::when_over))]
pub fn feed(s: &mut [u16], begun: Begun, piece: &[u8], last: bool, out: &mut [u8]) -> Fed
    ensures { (result, s.new, out.new) ≡ fed s.old begun piece.now last out.old }
{
    if begun.over {
        return Fed {
            reached: pieces::land(begun, piece, true, 0, How::Spent),
            written: 0,
        };
    }
    let step = replay_piece(s, &begun, piece, last, out);
    Fed {
        reached: pieces::land(begun, piece, last, step.at, step.how),
        written: step.written,
    }
}
