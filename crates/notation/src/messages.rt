// What was expected, as a message says it (docs/NOTATION.md, "A bad line").

ghost use Rattle.std.specs.Prelude.{Some};
ghost use Rattle.notation.specs.Messages.{field_message, message};

use crate::{Expected, Field};
use std::fmt;

impl fmt::Display for Field {
    ghost output = { λ f. Some (field_message f) };

    fn fmt<W: fmt::Write>(&self, f: &mut fmt::Formatter<W>) -> fmt::Result {
        f.write_str(match self {
            Field::Mode => "a mode: kernel, supervisor, illegal, user, or an octal number to 377",
            Field::Space => "a space: instruction, data, or an octal number to 377",
            Field::Access => "an access: read, write, or an octal number to 377",
            Field::Phase => "a phase: instruction, trap, or an octal number to 377",
            Field::Va => "a VA: an octal number to 177777",
            Field::Value => "a value: an octal number to 177777",
            Field::Vector => "a vector: an octal number to 177777",
            Field::Address => "an address: an octal number to 77777777",
            Field::Register => "a register: an octal number to 377",
            Field::Byte => "a byte: an octal number to 377",
        })
    }
}

impl fmt::Display for Expected {
    ghost output = { λ e. Some (message e) };

    fn fmt<W: fmt::Write>(&self, f: &mut fmt::Formatter<W>) -> fmt::Result {
        match self {
            Expected::Name => f.write_str(
                "one of reference, read, write, instruction, interrupt, change, init, byte",
            ),
            Expected::Field(field) => field.fmt(f),
            Expected::Amount => f.write_str("an amount: an octal number from -200 to 177"),
            Expected::End => f.write_str("the end of the line"),
        }
    }
}
