// Step 10 of a tick: what lets a cause go, which are held then, and the causes as a mask.
#![tactic(auto)]

ghost use Rattle.std.specs.Prelude.{◌≡◌, ◌≤◌};
ghost use Rattle.causes.specs.Held.{all_held, held_in, mask_of, lowest, how_many};
ghost use Rattle.causes.specs.Keeping.{released, step_10_held, step_10_wrongway};

use record::{Keys, Record};

// One thing for each cause: NZ1 vigilance, NZ2 speed, NZ3 direction, NZ4 remote stop, NZ5 standing.
#[derive(Clone, Copy, Default)]
pub struct PerCause<T> {
    pub nz1: T,
    pub nz2: T,
    pub nz3: T,
    pub nz4: T,
    pub nz5: T,
}

// A yes or no for each cause.
pub type Causes = PerCause<bool>;

impl<T: Copy> PerCause<T> {
    // What `f` makes of the two things of each cause.
    pub fn zip<U: Copy, R, F: Fn(T, U) -> R>(self, other: PerCause<U>, f: F) -> PerCause<R>
        requires { F.IsAlwaysCallable f }
        ensures { F.post f self.nz1 other.nz1 result.nz1
            × F.post f self.nz2 other.nz2 result.nz2
            × F.post f self.nz3 other.nz3 result.nz3
            × F.post f self.nz4 other.nz4 result.nz4
            × F.post f self.nz5 other.nz5 result.nz5 }
    {
        PerCause {
            nz1: f(self.nz1, other.nz1),
            nz2: f(self.nz2, other.nz2),
            nz3: f(self.nz3, other.nz3),
            nz4: f(self.nz4, other.nz4),
            nz5: f(self.nz5, other.nz5),
        }
    }
}

// The weights of the causes in the mask, which C reads in `foldharbor_answer` and `foldharbor_state`.
const NZ1: u8 = 1;

const NZ2: u8 = 2;

const NZ3: u8 = 4;

const NZ4: u8 = 8;

const NZ5: u8 = 16;

pub const ALL_HELD: u8 = NZ1 + NZ2 + NZ3 + NZ4 + NZ5;

// The causes held, as a mask: NZ1 is bit 0.
#[derive(Clone, Copy)]
pub struct Mask {
    pub bits: u8,
    pub ghost in_range: { bits ≤ all_held },
}

// The causes whose bits are on; bits 5 to 7 are not looked at. A `From<u8>` is no plainer: the name says which u8 is meant.
#[tactic(auto, unfolding(crate::specs::Held::held_in))]
pub fn held_in(mask: u8) -> Causes
    ensures { result ≡ held_in mask }
{
    Causes {
        nz1: mask / NZ1 % 2 == 1,
        nz2: mask / NZ2 % 2 == 1,
        nz3: mask / NZ3 % 2 == 1,
        nz4: mask / NZ4 % 2 == 1,
        nz5: mask / NZ5 % 2 == 1,
    }
}

impl From<Causes> for Mask {
    ghost from_gives = { λ causes mask. mask.bits ≡ mask_of causes };

    #[tactic(auto, unfolding(crate::specs::Held::mask_of))]
    fn from(causes: Causes) -> Mask {
        Mask {
            bits: numbers::weight(causes.nz1, NZ1)
                + numbers::weight(causes.nz2, NZ2)
                + numbers::weight(causes.nz3, NZ3)
                + numbers::weight(causes.nz4, NZ4)
                + numbers::weight(causes.nz5, NZ5),
        }
    }
}

// Step 10: what a vigilance press lets go.
#[tactic(auto, unfolding(crate::specs::Keeping::released))]
fn released(p: u16, reading: Record, keys: Keys) -> Causes
    ensures { result ≡ released p reading keys }
{
    Causes {
        nz1: keys.vigilance & (reading.v == 0),
        nz2: keys.vigilance & (reading.v <= p),
        nz3: keys.vigilance & (reading.v == 0),
        nz4: keys.vigilance & (reading.v == 0) & !keys.remote,
        nz5: keys.vigilance,
    }
}

// Step 10: which causes are held then.
#[tactic(auto, unfolding(crate::specs::Keeping::step_10_held))]
fn step_10_held(held: Causes, triggered: Causes, free: Causes) -> Causes
    ensures { result ≡ step_10_held held triggered free }
{
    let kept = held.zip(free, |held, free| held & !free);
    triggered.zip(kept, |triggered, kept| triggered | kept)
}

impl Mask {
    pub fn held(self) -> Causes
        ensures { result ≡ held_in self.bits }
    {
        held_in(self.bits)
    }

    // The lowest-numbered held cause, 0 where none is held.
    #[tactic(auto, using(crate::proofs::Masks::lowest_is, crate::proofs::Masks::lowest_none))]
    pub fn lowest(self) -> u8
        ensures { result ≡ lowest self.bits }
    {
        if self.bits == 0 {
            return 0;
        }
        (self.bits.trailing_zeros() + 1) as u8
    }

    #[tactic(auto, using(crate::proofs::Masks::count_is))]
    pub fn how_many(self) -> u8
        ensures { result ≡ how_many self.bits }
    {
        self.bits.count_ones() as u8
    }

    // Step 10: the causes held then. Without a vigilance press none is let go.
    #[tactic(auto, using(crate::proofs::Masks::join_most, crate::proofs::Masks::join_is))]
    pub fn step_10(self, triggered: Causes, p: u16, reading: Record, keys: Keys) -> Mask
        ensures { result.bits ≡ mask_of (step_10_held (held_in self.bits) triggered (released p reading keys)) }
    {
        if keys.vigilance {
            return step_10_held(self.held(), triggered, released(p, reading, keys)).into();
        }
        Mask {
            bits: self.bits | Mask::from(triggered).bits,
        }
    }
}

// Step 10: letting NZ3 go sets d = 0. Of any u8, as ever: a `Mask` would ask more.
#[tactic(auto, unfolding(crate::specs::Keeping::step_10_wrongway, crate::specs::Keeping::released))]
pub fn step_10_wrongway(
    wrongway: u16,
    mask: u8,
    triggered: Causes,
    p: u16,
    reading: Record,
    keys: Keys,
) -> u16
    ensures { (result ≡ step_10_wrongway wrongway (held_in mask) triggered (released p reading keys)) × (result ≤ wrongway) }
{
    if keys.vigilance {
        let held = held_in(mask);
        let free = released(p, reading, keys);
        if held.nz3 & !triggered.nz3 & free.nz3 {
            return 0;
        }
    }
    wrongway
}
