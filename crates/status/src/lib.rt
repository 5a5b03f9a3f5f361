// The four status words as a small record, changed in place by the two start events.
// Each function is thin over `started`, which does the work by value.

#![tactic(auto)]

ghost use Rattle.std.specs.Prelude.{◌≡◌};
ghost use Rattle.status.specs.Starts.{started_of};

#[derive(Clone, Copy, Debug, PartialEq, Eq)]
pub struct Status {
    pub sr0: u16,
    pub sr1: u16,
    pub sr2: u16,
    pub sr3: u16,
}

// Unless frozen, SR1 becomes 0 and SR2 the number.
#[tactic(auto, unfolding(crate::specs::Starts::started_of))]
pub fn started(t: Status, number: u16) -> Status
    ensures { result ≡ started_of t number }
{
    if ruling::frozen(t.sr0) {
        return t;
    }
    Status {
        sr1: 0,
        sr2: number,
        ..t
    }
}

// Two functions over one: they are two events of 01.
pub fn instruction_start(t: &mut Status, va: u16)
    ensures { t.new ≡ started_of t.old va }
{
    *t = started(*t, va);
}

pub fn interrupt_start(t: &mut Status, vector: u16)
    ensures { t.new ≡ started_of t.old vector }
{
    *t = started(*t, vector);
}
