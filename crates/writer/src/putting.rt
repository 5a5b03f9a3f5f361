// The bytes of a record (01, "Recordings"), stored one after the other; numbers low byte first.

ghost use Rattle.std.specs.Prelude.{◌≡◌, true, ◌+◌, ◌%◌, ◌≤◌, length};
ghost use Rattle.rules.specs.Others.{complement as complement_of};
ghost use Rattle.rules.specs.Refusals.{lowest};
ghost use Rattle.writer.specs.Bytes.{record_of};
ghost use Rattle.writer.specs.Writing.{in_byte, laid, large};

use rules::Event;

// Some bytes in place of those from a place on.
fn store(b: &mut [u8], at: usize, bytes: &[u8])
    requires { at + length bytes.now ≤ length b.old }
    ensures { b.new ≡ laid b.old at bytes.now }
{
    b[at..at + bytes.len()].copy_from_slice(bytes);
}

// a number's lowest byte
fn byte(n: u32) -> u8
    ensures { result ≡ n % 256 }
{
    let [low, ..] = n.to_le_bytes();
    low
}

// an amount as a two's complement byte: an event's amount may be any, and `large` is what says that it fits
fn complement(amount: i32) -> u8
    requires { in_byte amount ≡ true }
    ensures { result ≡ complement_of 255 amount }
{
    amount.rem_euclid(256) as u8
}

// The record of an event that is written: its kind, by 01's number, and its body. An enum of kinds would be no plainer: each number
// stands once, beside its body.
#[tactic(auto, using(crate::proofs::Fields::change_fits), unfolding(crate::specs::Bytes::record_of))]
pub(crate) fn put(b: &mut [u8], at: usize, event: Event)
    requires { (lowest (large event) ≡ 0) × (at + length (record_of event) ≤ length b.old) }
    ensures { b.new ≡ laid b.old at (record_of event) }
{
    match event {
        Event::Refer(r) => {
            let [low, high] = r.va.to_le_bytes();
            store(
                b,
                at,
                &[
                    1,
                    byte(r.mode),
                    byte(r.space),
                    byte(r.access),
                    byte(r.phase),
                    low,
                    high,
                ],
            );
        }
        Event::Read { address } => {
            let [low, middle, high, _] = address.to_le_bytes();
            store(b, at, &[2, low, middle, high]);
        }
        Event::Write { address, value } => {
            let [low, middle, high, _] = address.to_le_bytes();
            let [value, top] = value.to_le_bytes();
            store(b, at, &[3, low, middle, high, value, top]);
        }
        Event::Instruction { va } => {
            let [low, high] = va.to_le_bytes();
            store(b, at, &[4, low, high]);
        }
        Event::Interrupt { vector } => {
            let [low, high] = vector.to_le_bytes();
            store(b, at, &[5, low, high]);
        }
        Event::Change { register, amount } => {
            store(b, at, &[6, byte(register), complement(amount)]);
        }
        Event::Init => store(b, at, &[7]),
    }
}
