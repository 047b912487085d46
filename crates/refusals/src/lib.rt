// Why a file, a list or a table is refused: the numbers of the refusal table, and a fault with its place. A test of one place
// becomes the first place at fault here, whatever is tested.

#![tactic(auto)]

ghost use Rattle.std.specs.Prelude.{◌≡◌, ℕ, ◌<◌, Bool, Some, [], ◌∷◌};
ghost use Rattle.machine.specs.Refusals.{line, placeless, judge};
ghost use Rattle.refusals.specs.Faults.{number_of, shown, verdict_of};

use std::fmt;

// The lines of the refusal table, with document 01's numbers.
#[derive(Clone, Copy, PartialEq, Eq)]
pub enum Refusal {
    // A graph file's header.
    Short = 1,
    Unmarked = 2,
    Overfull = 3,
    Misplaced = 4,
    Length = 5,
    // A graph's content.
    Class = 6,
    Path = 7,
    Producer = 8,
    Branch = 9,
    Arc = 10,
    Join = 11,
    // What is lent, and the schedule.
    Slots = 12,
    Unschedulable = 13,
    Room = 14,
    // A table file.
    Layout = 15,
    Order = 16,
    Unfounded = 17,
    Illegal = 18,
    Gap = 19,
    Cycles = 20,
}

impl Refusal {
    // Document 01's number, which is the variant's own.
    #[tactic(auto, unfolding(crate::specs::Faults::number_of))]
    pub fn number(self) -> u32
        ensures { result ≡ number_of self }
    {
        self as u32
    }
}

// A refusal and the place that it names; 0 where it names none, and no Option: the promises' verdicts and the C interface need it.
#[derive(Clone, Copy, PartialEq, Eq)]
pub struct Fault {
    pub refusal: Refusal,
    pub place: usize,
}

impl fmt::Display for Fault {
    ghost output = { λ f. Some (shown f) };

    #[tactic(auto, unfolding(crate::specs::Faults::shown))]
    fn fmt<W: fmt::Write>(&self, f: &mut fmt::Formatter<W>) -> fmt::Result {
        write!(f, "refused {} {}", self.refusal.number(), self.place)
    }
}

// A refusal whose place is not named, where its condition holds.
pub fn refuse_if(found: bool, refusal: Refusal) -> Result<(), Fault>
    ensures { verdict_of result ≡ judge (placeless (number_of refusal) found ∷ []) }
{
    if found {
        return Err(Fault { refusal, place: 0 });
    }
    Ok(())
}

// The first of so many places at which the test finds a fault.
pub fn first_fault<F: Fn(usize) -> bool>(
    refusal: Refusal,
    places: usize,
    test: F,
) -> Result<(), Fault>
    requires { F.IsAlwaysCallable test }
    ensures { (fault : ℕ → Bool) → ((p : ℕ) (r : Bool) → p < places → F.post test p r → r ≡ fault p)
        → verdict_of result ≡ judge (line (number_of refusal) places fault ∷ []) }
{
    for place in 0..places {
        if test(place) {
            return Err(Fault { refusal, place });
        }
    }
    Ok(())
}
