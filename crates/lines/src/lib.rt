// An answer's line (01, "Recordings"), placed in the lent output.

#![tactic(auto)]

ghost use Rattle.std.specs.Prelude.{◌≡◌, length};
ghost use Rattle.rules.specs.Paper.{paper, number, G, A as Abort, R, X};
ghost use Rattle.lines.specs.Lines.{line_of, placed};

use rules::{Answer, Refusal};

mod digits;
mod place;

pub use digits::{decimal, octal};
use place::put_text;

// The length of the longest line.
pub const LONGEST: usize = 14;

#[tactic(auto, unfolding(crate::specs::Lines::line_of))]
fn granted(byte: u32, trap: bool, served: Option<u8>) -> [u8; LONGEST]
    ensures { result ≡ line_of (G byte trap served) }
{
    let mut line = *b"G 000000 - --\n";
    line[2..8].copy_from_slice(&octal::<6>(u64::from(byte)));
    if trap {
        line[9] = b'T';
    }
    if let Some(place) = served {
        line[11..13].copy_from_slice(&decimal::<2>(u64::from(place)));
    }
    line
}

#[tactic(auto, unfolding(crate::specs::Lines::line_of))]
fn aborted(nonresident: bool, beyond: bool, readonly: bool) -> [u8; 6]
    ensures { result ≡ line_of (Abort nonresident beyond readonly) }
{
    let mut line = *b"A 000\n";
    line[2] += u8::from(nonresident);
    line[3] += u8::from(beyond);
    line[4] += u8::from(readonly);
    line
}

#[tactic(auto, unfolding(crate::specs::Lines::line_of))]
fn register(word: u16) -> [u8; 9]
    ensures { result ≡ line_of (R word) }
{
    let mut line = *b"R 000000\n";
    line[2..8].copy_from_slice(&octal::<6>(u64::from(word)));
    line
}

#[tactic(auto, unfolding(crate::specs::Lines::line_of))]
fn refused(refusal: Refusal) -> [u8; 5]
    ensures { result ≡ line_of (X (number refusal)) }
{
    let mut line = *b"X 00\n";
    line[2..4].copy_from_slice(&decimal::<2>(u64::from(u32::from(refusal))));
    line
}

// The length of an answer's line, or of a refusal's.
#[tactic(auto, unfolding(crate::specs::Lines::line_of))]
pub fn length_of(a: Result<Answer, Refusal>) -> usize
    ensures { result ≡ length (line_of (paper a)) }
{
    match a {
        Ok(Answer::Granted { .. }) => LONGEST,
        Ok(Answer::Aborted { .. }) => 6,
        Ok(Answer::Word(_)) => 9,
        Ok(Answer::Done) => 2,
        Err(_) => 5,
    }
}

// The line of an answer, or of a refusal, at a place of the output, where it fits: how many bytes were written.
#[tactic(auto, unfolding(crate::specs::Lines::line_of))]
pub fn put(out: &mut [u8], at: usize, a: Result<Answer, Refusal>) -> Option<usize>
    ensures { (result, out.new) ≡ placed out.old at (line_of (paper a)) }
{
    match a {
        Ok(Answer::Granted { byte, trap, served }) => {
            put_text(out, at, &granted(byte, trap, served))
        }
        Ok(
            Answer::Aborted {
                nonresident,
                length,
                readonly,
            },
        ) => put_text(out, at, &aborted(nonresident, length, readonly)),
        Ok(Answer::Word(word)) => put_text(out, at, &register(word)),
        Ok(Answer::Done) => put_text(out, at, b"D\n"),
        Err(refusal) => put_text(out, at, &refused(refusal)),
    }
}
