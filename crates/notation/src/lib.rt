// Events as text, one a line (docs/NOTATION.md).

#![tactic(auto)]

ghost use Rattle.std.specs.Prelude.{◌≡◌, ◌+◌, length, drop};
ghost use Rattle.notation.specs.Words.{before, not_feed};
ghost use Rattle.notation.specs.Lines.{line_of};

use rules::Event;

mod fields;
mod messages;
mod named;
mod words;

use words::Words;

// The name that a line begins with.
#[derive(Clone, Copy, Debug, PartialEq, Eq)]
pub enum Name {
    Reference,
    Read,
    Write,
    Instruction,
    Interrupt,
    Change,
    Init,
    Byte,
}

// A field with a number.
#[derive(Clone, Copy, Debug, PartialEq, Eq)]
pub enum Field {
    Mode,
    Space,
    Access,
    Phase,
    Va,
    Value,
    Vector,
    Address,
    Register,
    Byte,
}

// What a line lacks at the first word that does not fit.
#[derive(Clone, Copy, Debug, PartialEq, Eq)]
pub enum Expected {
    // An event's name.
    Name,
    Field(Field),
    Amount,
    // No further word.
    End,
}

// What a line says.
#[derive(Clone, Copy, Debug, PartialEq, Eq)]
pub enum Line {
    // Nothing: it has no word.
    Blank,
    Event(Event),
    // A byte as it is, for a damaged recording.
    Byte(u8),
}

// What a line says, or what was expected of it. It is given without its line feed.
#[tactic(auto, unfolding(crate::specs::Lines::line_of))]
pub fn read_line(line: &[u8]) -> Result<Line, Expected>
    ensures { result ≡ line_of line.now }
{
    let mut words = Words { left: line };
    let word = words.word();
    if word.is_empty() {
        return Ok(Line::Blank);
    }
    let name = Name::of(word).ok_or(Expected::Name)?;
    named::line(name, &mut words)
}

// The place of the first line feed from a place on, or else the text's end; a place beyond the text as it is.
pub fn line_end(text: &[u8], from: usize) -> usize
    ensures { result ≡ from + length (before not_feed (drop from text.now)) }
{
    if text.len() < from {
        return from;
    }
    from + words::line_len(&text[from..])
}
