// What a replay of a recording says (01, "Recordings"; request E4): the type of a feed's answer. The transcript, the feeds that
// make it and the theorems on them are in specs/, their proofs in proofs/.

#![tactic(auto)]

use pieces::Reached;

// What one feed did: how far it took the piece, and how many bytes of the output were written.
#[derive(Clone, Copy)]
pub struct Fed {
    pub reached: Reached,
    pub written: usize,
}
