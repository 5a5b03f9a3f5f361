// The replay of a recording as C links it: each export calls `tape`, by the same clauses. A crate of its own, since what C links
// is a static library. include/kt11c.h says them for C.

#![tactic(auto)]

ghost use Rattle.std.specs.Prelude.{◌≡◌};
ghost use Rattle.transcript.specs.Feeding.{fed};
ghost use Rattle.tape.specs.Tapes.{begun_by, counted, wholly};

// Feeds a piece: the lines that fit are written, and the state tells how far it came; how many bytes were written.
#[unsafe(no_mangle)]
pub extern "C" fn kt11c_feed(
    store: &mut [u16],
    state: &mut [u64; 11],
    piece: &[u8],
    last: bool,
    out: &mut [u8],
) -> usize
    ensures { (result, store.new, state.new, out.new) ≡ counted (fed store.old (begun_by state.old) piece.now last out.old) }
{
    tape::kt11c_feed(store, state, piece, last, out)
}

// A whole recording in one call, from the record at a place on, while the next line fits; how many bytes were written.
#[unsafe(no_mangle)]
pub extern "C" fn kt11c_replay(
    store: &mut [u16],
    recording: &[u8],
    at: usize,
    out: &mut [u8],
) -> usize
    ensures { (result, store.new, out.new) ≡ wholly store.old recording.now at out.old }
{
    tape::kt11c_replay(store, recording, at, out)
}
