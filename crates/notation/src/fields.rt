// What a word stands for in its field.

ghost use Rattle.std.specs.Prelude.{◌≡◌, ◌≤◌, IfSome, pos, ◌≤ℤ◌};
ghost use Rattle.std.specs.Option.{option_map};
ghost use Rattle.notation.specs.Fields.{looked_up, words_of, most_of, octal_up_to, number_of, amount_of};

use crate::Field;

impl Field {
    // the largest number that it holds
    fn most(self) -> u32
        ensures { (result ≡ most_of self) × (result ≤ 0o77777777) }
    {
        match self {
            Field::Mode | Field::Space | Field::Access | Field::Phase => 0o377,
            Field::Va | Field::Value | Field::Vector => 0o177777,
            Field::Address => 0o77777777,
            Field::Register | Field::Byte => 0o377,
        }
    }

    // the number of one of its own words
    fn word(self, word: &[u8]) -> Option<u32>
        ensures { result ≡ looked_up word.now (words_of self) }
    {
        match self {
            Field::Mode => match word {
                b"kernel" => Some(0),
                b"supervisor" => Some(1),
                b"illegal" => Some(2),
                b"user" => Some(3),
                _ => None,
            },
            Field::Space => match word {
                b"instruction" => Some(0),
                b"data" => Some(1),
                _ => None,
            },
            Field::Access => match word {
                b"read" => Some(0),
                b"write" => Some(1),
                _ => None,
            },
            Field::Phase => match word {
                b"instruction" => Some(0),
                b"trap" => Some(1),
                _ => None,
            },
            Field::Va
            | Field::Value
            | Field::Vector
            | Field::Address
            | Field::Register
            | Field::Byte => None,
        }
    }

    // by one of its words, or as a number up to its limit
    #[tactic(auto, unfolding(crate::specs::Fields::number_of))]
    pub(crate) fn number(self, word: &[u8]) -> Option<u32>
        ensures { result ≡ number_of self word.now }
    {
        self.word(word).or(octal(word, self.most()))
    }
}

// a number in octal digits, one or more, and at most so large
fn octal(word: &[u8], most: u32) -> Option<u32>
    requires { most ≤ 0o77777777 }
    ensures value { result ≡ octal_up_to most word.now }
    ensures within { IfSome result (λ n. n ≤ most) }
{
    if word.is_empty() {
        return None;
    }
    let mut n = 0;
    for c in word {
        let digit @ b'0'..=b'7' = *c else {
            return None;
        };
        n = 8 * n + u32::from(digit - b'0');
        if most < n {
            return None;
        }
    }
    Some(n)
}

// a number as an amount
fn signed(digits: &[u8], most: u32) -> Option<i32>
    requires { most ≤ 0o200 }
    ensures value { result ≡ option_map pos (octal_up_to most digits.now) }
    ensures within { IfSome result (λ z. (pos 0 ≤ℤ z) × (z ≤ℤ pos 0o200)) }
{
    Some(octal(digits, most)?.cast_signed())
}

// an amount by its sign, if it has one
pub(crate) fn amount(word: &[u8]) -> Option<i32>
    ensures { result ≡ amount_of word.now }
{
    let (sign, digits) = word.split_first()?;
    match *sign {
        b'-' => Some(-signed(digits, 0o200)?),
        b'+' => signed(digits, 0o177),
        _ => signed(word, 0o177),
    }
}
