// A number as text: so many digits to a base, the highest first. A format would print more digits of a larger number, which `line_of`
// and a report's text cut off.

ghost use Rattle.std.specs.Prelude.{◌≡◌, ◌<◌, ◌≤◌, []};
ghost use Rattle.lines.specs.Digits.{digits as digits_of, octal as octal_of, decimal as decimal_of};

#[tactic(auto, using(crate::proofs::Written::one_more))]
fn digits<const BASE: u64, const WIDTH: usize>(n: u64) -> [u8; WIDTH]
    requires { (0 < BASE) × (BASE ≤ 10) }
    ensures { result ≡ digits_of BASE WIDTH n [] }
{
    let mut text = [b'0'; WIDTH];
    let mut left = n;
    for i in (0..WIDTH).rev() {
        text[i] = b'0' + (left % BASE) as u8;
        left /= BASE;
    }
    text
}

// A number's last octal digits. Two instances, since only a private function may ask that the base be small.
pub fn octal<const WIDTH: usize>(n: u64) -> [u8; WIDTH]
    ensures { result ≡ octal_of WIDTH n }
{
    digits::<8, WIDTH>(n)
}

// A number's last decimal digits.
pub fn decimal<const WIDTH: usize>(n: u64) -> [u8; WIDTH]
    ensures { result ≡ decimal_of WIDTH n }
{
    digits::<10, WIDTH>(n)
}
