// Input a piece at a time, by way of one lent buffer.

#![tactic(auto)]

ghost use Rattle.std.specs.Prelude.{IfOk, OnErr};
ghost use Rattle.stream.specs.Ready.{Ready, Stays, Spent, Brought};

use std::io::Read;
use std::{fmt, io};

// The bytes of the buffer that lie ready, from a place up to an end; and whether no more come, and then there are none. Places and not
// a slice, since the buffer is lent for the next read too, and nothing is allocated, as `BufReader` would; and a flag, which `more`'s clauses name.
#[derive(Clone, Copy)]
pub struct Input {
    pub from: usize,
    pub to: usize,
    pub last: bool,
}

// one read into the whole buffer
fn refill<R: Read>(reader: &mut R, buffer: &mut [u8]) -> io::Result<Input>
    ensures ready { IfOk result (λ i. Ready i buffer.new) }
    ensures brought { Brought (R.remaining reader.old) (R.remaining reader.new) 0 0 buffer.old result buffer.new }
{
    let to = reader.read(buffer)?;
    Ok(Input {
        from: 0,
        to,
        last: to == 0,
    })
}

// What lies ready: the bytes still there, or, where there are none, those of another read. It fails only where that read does.
pub fn more<R: Read>(reader: &mut R, buffer: &mut [u8], from: usize, to: usize) -> io::Result<Input>
    ensures ready { IfOk result (λ i. Ready i buffer.new) }
    ensures stays { IfOk result (λ i. Stays from to buffer.old i buffer.new) }
    ensures failed { OnErr result (Spent from to buffer.old) }
    ensures brought { Brought (R.remaining reader.old) (R.remaining reader.new) from to buffer.old result buffer.new }
{
    if to <= from {
        return refill(reader, buffer);
    }
    if buffer.len() < to {
        return refill(reader, buffer);
    }
    Ok(Input {
        from,
        to,
        last: false,
    })
}

// What a program could not do: read its input, or write its output.
#[derive(Clone, Copy)]
pub enum Failed {
    Input(io::Error),
    Output(io::Error),
}

impl fmt::Display for Failed {
    fn fmt<W: fmt::Write>(&self, f: &mut fmt::Formatter<W>) -> fmt::Result {
        match self {
            Failed::Input(error) => write!(f, "standard input: {error}"),
            Failed::Output(error) => write!(f, "standard output: {error}"),
        }
    }
}
