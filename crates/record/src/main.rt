// Reads events as text from standard input, one a line (docs/NOTATION.md), and writes their recording to standard output. At a
// bad line it says on standard error which it is and what was expected, and records nothing more; if it can't read or write,
// it says that.

#![tactic(auto)]

mod stop;

ghost use Rattle.std.specs.Prelude.{◌≡◌, ◌+◌, ◌<◌, ◌≤◌, length, IfOk};

use script::Problem;
use std::io;
use std::io::Read;
use stop::Stop;
use stream::Failed;

// Where a run stands. Its buffers are lent beside it, for nothing is allocated: an invariant over its own would be owed between the two writes that keep it.
#[derive(Clone, Copy)]
struct Run {
    // Bytes of the output that are used.
    used: usize,
    // The number of the line that comes next, from 1.
    line: u64,
}

// one read, into the text from a place on; how many bytes came
fn read_at<R: Read>(input: &mut R, text: &mut [u8], at: usize) -> io::Result<usize>
    requires { at ≤ length text.old }
    ensures { IfOk result (λ count. at + count ≤ length text.old) }
{
    input.read(&mut text[at..])
}

impl Run {
    // writes the bytes used; none are afterwards, also where that fails
    fn flush(&mut self, rt: &impl Print, out: &[u8]) -> Result<(), Stop>
        requires { self.old.used ≤ length out.now }
        ensures { self.new.used ≡ 0 }
    {
        let used = self.used;
        self.used = 0;
        rt.write_all(&out[..used]).map_err(Failed::Output)?;
        Ok(())
    }

    // every line that has its line feed; a full output is written, and the line taken again; the place of the first byte that is
    // not recorded
    fn lines(&mut self, rt: &impl Print, text: &[u8], out: &mut [u8]) -> Result<usize, Stop>
        requires { (7 ≤ length out.old) × (self.old.used ≤ length out.old) }
        ensures used { self.new.used ≤ length out.old }
        ensures place { IfOk result (λ at. at ≤ length text.now) }
    {
        let mut at = 0;
        let mut end = notation::line_end(text, at);
        while end < text.len() {
            match script::record_line(&text[at..end], out, self.used) {
                Ok(next) => {
                    at = end + 1;
                    self.used = next;
                    self.line = self.line.wrapping_add(1);
                    end = notation::line_end(text, at);
                }
                Err(Problem::Full) => self.flush(rt, out)?,
                Err(Problem::Bad(expected)) => return Err(Stop::Bad(self.line, expected)),
            }
        }
        Ok(at)
    }

    // read by read, what follows the last line feed kept; the last line needs none. A proved loop has to end, and nothing says that
    // the input does: so the reads have a number that no run uses up.
    fn record<R: Read>(
        &mut self,
        rt: &impl Print,
        input: &mut R,
        text: &mut [u8],
        out: &mut [u8],
    ) -> Result<(), Stop>
        requires { (0 < length text.old) × (7 ≤ length out.old) × (self.old.used ≤ length out.old) }
        ensures { self.new.used ≤ length out.old }
    {
        let mut have = 0;
        for _ in 0..u64::MAX {
            let count = read_at(input, text, have).map_err(Failed::Input)?;
            if count == 0 {
                text[have] = b'\n';
                let all = have + 1;
                self.lines(rt, &text[..all], out)?;
                return Ok(());
            }
            let end = have + count;
            let at = self.lines(rt, &text[..end], out)?;
            text.copy_within(at..end, 0);
            have = end - at;
            if have == text.len() {
                return Err(Stop::Long(self.line));
            }
        }
        Ok(())
    }
}

// where standard error can't be written, nobody is told
fn tell(rt: &impl Eprint, ended: Result<(), Stop>) {
    if let Err(stop) = ended {
        let _ = eprintln!(rt; "record: {stop}");
    }
}

fn main(rt: HostRuntime) {
    let mut text = [0u8; 4096];
    let mut out = [0u8; 4096];
    let mut run = Run { used: 0, line: 1 };
    tell(&rt, run.record(&rt, &mut rt.stdin(), &mut text, &mut out));
    tell(&rt, run.flush(&rt, &out));
}
