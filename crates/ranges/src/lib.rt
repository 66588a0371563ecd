// What may be out of range, as all that a host or a file hands over, and what is in range: a value with the fact beside it.
#![tactic(auto)]

ghost use Rattle.std.specs.Prelude.{◌≡◌, Bool, false, MatchOption};
ghost use Rattle.ranges.specs.Ranged.{RangedLaws};

use std::alloc::AllocError;

// A type whose values may be out of range.
pub trait Ranged: Copy {
    // the ranges, as facts
    ghost ranges: { Self → Type 0 };

    // the test of them
    ghost test: { Self → Bool };

    ghost laws: { RangedLaws ranges test };

    fn in_range(self) -> bool
        ensures { result ≡ test self };
}

// A value that is in range.
pub struct InRange<T: Ranged> {
    pub it: T,
    pub ghost in_range: { T.ranges it } by { T.laws.one_proof it },
}

// By hand: over a ghost field of a type parameter the check refuses a derive.
impl<T: Ranged> Clone for InRange<T> {
    fn clone(&self) -> Result<Self, AllocError> {
        Ok(*self)
    }
}

impl<T: Ranged> Copy for InRange<T> {}

impl<T: Ranged> InRange<T> {
    // The value where it is in range, else nothing.
    pub fn of(it: T) -> Option<InRange<T>>
        ensures { MatchOption result (T.test it ≡ false) (λ good. good.it ≡ it) }
    {
        if it.in_range() {
            return Some(InRange { it });
        }
        None
    }
}
