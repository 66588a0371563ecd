// The refusals, each with its number as the paper's table has it and from 14 on the request that brings it.
#![tactic(auto)]

ghost use Rattle.std.specs.Prelude.{◌≡◌};
ghost use Rattle.refusal.specs.Number.{number};

#[derive(Clone, Copy, Debug, PartialEq, Eq)]
pub enum Refusal {
    BadSpeed = 1,
    BadPressure = 2,
    BadField = 3,
    BadCard = 4,
    BadDesk = 5,
    ShortJournal = 6,
    FullJournal = 7,
    BackTooFar = 8,
    BadRecord = 9,
    BadFile = 10,
    BadTicks = 11,
    ShortBuffer = 12,
    NoSuchCard = 13,
    ValveClosed = 14,
    BadTable = 15,
    NoSuchMessage = 16,
    NoSuchLanguage = 17,
    OtherDesk = 23,
}

// The number that a host and a file know it by.
impl From<Refusal> for u8 {
    ghost from_gives = { λ refusal n. n ≡ number refusal };

    #[tactic(auto, unfolding(crate::specs::Number::number))]
    fn from(refusal: Refusal) -> u8 {
        refusal as u8
    }
}
