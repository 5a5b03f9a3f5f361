// The modes that have pages, and what rule 3 goes by of each.

ghost use Rattle.std.specs.Prelude.{◌≡◌, ◌≤◌};
ghost use Rattle.rules.specs.Words.{enables_d as enables_d_of};
ghost use Rattle.rules.specs.References.{first_page as first_page_of};
ghost use Rattle.rules.specs.Modes.{mode_number, mode_of};

use crate::Refusal;

// A mode that has pages.
#[derive(Clone, Copy, Debug, PartialEq, Eq)]
pub enum Mode {
    Kernel,
    Supervisor,
    User,
}

impl Mode {
    // The mode of a number; none for 2 (rule 2), refused by 2 beyond 3.
    #[tactic(auto, unfolding(crate::specs::Modes::mode_of))]
    pub fn of(number: u32) -> Result<Option<Mode>, Refusal>
        ensures { result ≡ mode_of number }
    {
        match number {
            0 => Ok(Some(Mode::Kernel)),
            1 => Ok(Some(Mode::Supervisor)),
            2 => Ok(None),
            3 => Ok(Some(Mode::User)),
            _ => Err(Refusal::Mode),
        }
    }

    // Where its pages begin among the 48 (rule 3).
    pub fn first_page(self) -> usize
        ensures { (result ≡ first_page_of (mode_number self)) × (result ≤ 32) }
    {
        match self {
            Mode::Kernel => 0,
            Mode::Supervisor => 16,
            Mode::User => 32,
        }
    }

    // SR3 enables its D set: bit 2 for Kernel, bit 1 for Supervisor, bit 0 for User (rule 3).
    pub fn enables_d(self, sr3: u16) -> bool
        ensures { result ≡ enables_d_of sr3 (mode_number self) }
    {
        let bit = match self {
            Mode::Kernel => 2,
            Mode::Supervisor => 1,
            Mode::User => 0,
        };
        (sr3 >> bit) % 2 == 1
    }
}

// Its number in 01.
impl From<Mode> for u16 {
    ghost from_gives = { λ m n. n ≡ mode_number m };

    fn from(mode: Mode) -> u16 {
        match mode {
            Mode::Kernel => 0,
            Mode::Supervisor => 1,
            Mode::User => 3,
        }
    }
}
