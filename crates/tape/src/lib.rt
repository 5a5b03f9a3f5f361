// The replay of a recording (01, "Recordings"; request E4) as C and Rust want it: a piece at a time, into a lent output; `tape_c` exports
// these functions. The state between pieces is lent as eleven words, all 0 before the first byte; specs/Tapes.antt and include/kt11c.h say
// what each holds.

#![tactic(auto)]

ghost use Rattle.std.specs.Prelude.{◌≡◌, ◌%◌, ◌<◌, get_or};
ghost use Rattle.transcript.specs.Feeding.{fed};
ghost use Rattle.tape.specs.Tapes.{begun_by, words_of, counted, wholly};

use pieces::{Begun, Held, Reached};
use std::array;

// the state that the words hold; no `From`, here and below, since the types are another crate's
#[tactic(auto, unfolding(crate::specs::Tapes::begun_by))]
fn begun(words: &[u64; 11]) -> Begun
    ensures { result ≡ begun_by words.now }
{
    Begun {
        held: Held {
            bytes: array::from_fn(
                |i|
                    requires { i < 7 }
                    ensures { result ≡ get_or words.entry.now i 0 % 256 }
                { (words[i] % 256) as u8 },
            ),
            count: words[7] as usize,
        },
        at: words[8] as usize,
        over: words[9] != 0,
    }
}

// how far a piece was taken, as words
#[tactic(auto, unfolding(crate::specs::Tapes::words_of))]
fn words(reached: Reached) -> [u64; 11]
    ensures { result ≡ words_of reached }
{
    let begun = reached.begun;
    let [a, b, c, d, e, f, g] = begun.held.bytes.map(u64::from);
    [
        a,
        b,
        c,
        d,
        e,
        f,
        g,
        begun.held.count as u64,
        begun.at as u64,
        u64::from(begun.over),
        reached.taken as u64,
    ]
}

// Feeds a piece: the lines that fit are written, and the state tells how far it came; how many bytes were written.
#[tactic(auto, unfolding(crate::specs::Tapes::counted))]
pub fn kt11c_feed(
    store: &mut [u16],
    state: &mut [u64; 11],
    piece: &[u8],
    last: bool,
    out: &mut [u8],
) -> usize
    ensures { (result, store.new, state.new, out.new) ≡ counted (fed store.old (begun_by state.old) piece.now last out.old) }
{
    let step = recording::feed(store, begun(state), piece, last, out);
    *state = words(step.reached);
    step.written
}

// A whole recording in one call, from the record at a place on, while the next line fits; how many bytes were written.
#[tactic(auto, using(crate::proofs::Places::from_place), unfolding(crate::specs::Tapes::wholly))]
pub fn kt11c_replay(store: &mut [u16], recording: &[u8], at: usize, out: &mut [u8]) -> usize
    ensures { (result, store.new, out.new) ≡ wholly store.old recording.now at out.old }
{
    let from = Begun {
        at,
        ..pieces::fresh()
    };
    let start = at.min(recording.len());
    let step = recording::feed(store, from, &recording[start..], true, out);
    step.written
}
