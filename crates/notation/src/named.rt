// What a line says, by its name and the words after it.

ghost use Rattle.std.specs.Prelude.{◌≡◌, ◌≤◌, IfOk};
ghost use Rattle.notation.specs.Words.{after_word};
ghost use Rattle.notation.specs.Fields.{looked_up, most_of};
ghost use Rattle.notation.specs.Lines.{names, field_of, amount_at, ending, reference_line, write_line, change_line, named_line};

use crate::words::Words;
use crate::{Expected, Field, Line, Name};
use rules::{Event, Reference};

impl Name {
    pub(crate) fn of(word: &[u8]) -> Option<Name>
        ensures { result ≡ looked_up word.now names }
    {
        match word {
            b"reference" => Some(Name::Reference),
            b"read" => Some(Name::Read),
            b"write" => Some(Name::Write),
            b"instruction" => Some(Name::Instruction),
            b"interrupt" => Some(Name::Interrupt),
            b"change" => Some(Name::Change),
            b"init" => Some(Name::Init),
            b"byte" => Some(Name::Byte),
            _ => None,
        }
    }
}

impl Words<'_> {
    // the number of a field, which the first word is
    #[tactic(auto, unfolding(crate::specs::Lines::field_of))]
    fn field(&mut self, f: Field) -> Result<u32, Expected>
        ensures value { result ≡ field_of f self.old.left.now }
        ensures left { self.new.left.now ≡ after_word self.old.left.now }
        ensures within { IfOk result (λ n. n ≤ most_of f) }
    {
        f.number(self.word()).ok_or(Expected::Field(f))
    }

    #[tactic(auto, unfolding(crate::specs::Lines::amount_at))]
    fn amount(&mut self) -> Result<i32, Expected>
        ensures value { result ≡ amount_at self.old.left.now }
        ensures left { self.new.left.now ≡ after_word self.old.left.now }
    {
        crate::fields::amount(self.word()).ok_or(Expected::Amount)
    }

    // what the line says, where no word follows
    fn ending(&mut self, line: Line) -> Result<Line, Expected>
        ensures { result ≡ ending line self.old.left.now }
    {
        if self.word().is_empty() {
            Ok(line)
        } else {
            Err(Expected::End)
        }
    }
}

#[tactic(auto, unfolding(crate::specs::Lines::reference_line))]
fn reference(words: &mut Words<'_>) -> Result<Line, Expected>
    ensures { result ≡ reference_line words.old.left.now }
{
    let mode = words.field(Field::Mode)?;
    let space = words.field(Field::Space)?;
    let access = words.field(Field::Access)?;
    let phase = words.field(Field::Phase)?;
    let va = words.field(Field::Va)? as u16;
    words.ending(Line::Event(Event::Refer(Reference {
        mode,
        space,
        access,
        phase,
        va,
    })))
}

#[tactic(auto, unfolding(crate::specs::Lines::write_line))]
fn write(words: &mut Words<'_>) -> Result<Line, Expected>
    ensures { result ≡ write_line words.old.left.now }
{
    let address = words.field(Field::Address)?;
    let value = words.field(Field::Value)? as u16;
    words.ending(Line::Event(Event::Write { address, value }))
}

#[tactic(auto, unfolding(crate::specs::Lines::change_line))]
fn change(words: &mut Words<'_>) -> Result<Line, Expected>
    ensures { result ≡ change_line words.old.left.now }
{
    let register = words.field(Field::Register)?;
    let amount = words.amount()?;
    words.ending(Line::Event(Event::Change { register, amount }))
}

// what the words after a name say
pub(crate) fn line(name: Name, words: &mut Words<'_>) -> Result<Line, Expected>
    ensures { result ≡ named_line name words.old.left.now }
{
    match name {
        Name::Reference => reference(words),
        Name::Read => {
            let event = Event::Read {
                address: words.field(Field::Address)?,
            };
            words.ending(Line::Event(event))
        }
        Name::Write => write(words),
        Name::Instruction => {
            let event = Event::Instruction {
                va: words.field(Field::Va)? as u16,
            };
            words.ending(Line::Event(event))
        }
        Name::Interrupt => {
            let event = Event::Interrupt {
                vector: words.field(Field::Vector)? as u16,
            };
            words.ending(Line::Event(event))
        }
        Name::Change => change(words),
        Name::Init => words.ending(Line::Event(Event::Init)),
        Name::Byte => {
            let b = words.field(Field::Byte)? as u8;
            words.ending(Line::Byte(b))
        }
    }
}
