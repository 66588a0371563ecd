// Step 7 of a tick: cyclic vigilance.
#![tactic(auto)]

ghost use Rattle.std.specs.Prelude.{◌≡◌, ◌≤◌};
ghost use Rattle.card.specs.Card.{most_cycle};
ghost use Rattle.cyclic.specs.Kind.{number};
ghost use Rattle.cyclic.specs.Ranges.{CyclicRanges, cyclic_in_range};
ghost use Rattle.cyclic.specs.Laws.{cyclic_laws};
ghost use Rattle.cyclic.specs.Cyclic.{eased, asks_increased, cyclic_kind, increased_cycle, cycle_length, step_7_cyclic};

use card::Card;
use ranges::{InRange, Ranged};
use record::{Keys, Record};
use signal::Signal;

// The kinds of cyclic vigilance.
#[derive(Clone, Copy, PartialEq, Eq)]
pub enum Kind {
    None = 0,
    Ordinary = 1,
    Increased = 2,
}

impl From<Kind> for u8 {
    ghost from_gives = { λ kind n. n ≡ number kind };

    #[tactic(auto, unfolding(crate::specs::Kind::number))]
    fn from(kind: Kind) -> u8 {
        kind as u8
    }
}

// Cyclic vigilance.
#[repr(C)]
#[derive(Clone, Copy, Default, PartialEq, Eq)]
pub struct Cyclic {
    // a `Kind` by its number, which C reads in `foldharbor_cyclic` and may hand over out of range
    pub kind: u8,
    // q, the ticks since it was confirmed
    pub ticks: u16,
}

// What step 7 finds.
#[derive(Clone, Copy)]
pub struct CyclicStep {
    pub cyclic: Cyclic,
    // NZ1 is triggered
    pub lapses: bool,
    pub prompts: bool,
}

// The cycle of increased vigilance.
const INCREASED_CYCLE: u16 = 120;

const LONGEST_COUNT: u16 = 599;

// A prompt shows for the last 35 ticks of its cycle.
const PROMPT_TICKS: u16 = 35;

impl Ranged for Cyclic {
    ghost ranges = { CyclicRanges };

    ghost test = { cyclic_in_range };

    ghost laws = { cyclic_laws };

    fn in_range(self) -> bool {
        (self.kind <= Kind::Increased as u8) & (self.ticks <= LONGEST_COUNT)
    }
}

fn eased(reading: Record, keys: Keys) -> bool
    ensures { result ≡ eased reading keys }
{
    (reading.v == 0) | (keys.brake & (reading.v < 150))
}

#[tactic(auto, unfolding(crate::specs::Cyclic::asks_increased))]
fn asks_increased(mode: u8, signal: Signal, reading: Record, keys: Keys) -> bool
    ensures { result ≡ asks_increased mode signal reading keys }
{
    if mode != record::PRE {
        return false;
    }
    if 0 < signal.man {
        return true;
    }
    let eased = eased(reading, keys);
    match reading.code {
        record::STOP => (signal.curve.start == 0) & !eased,
        record::FORTY => (1 <= signal.codes.raise) & !eased,
        record::WARNING => (signal.curve.start == 0) & (900 < reading.v),
        _ => false,
    }
}

// Step 7: which vigilance is asked.
#[tactic(auto, unfolding(crate::specs::Kind::number, crate::specs::Cyclic::asks_ordinary, crate::specs::Cyclic::cyclic_kind))]
pub fn cyclic_kind(mode: u8, signal: Signal, reading: Record, keys: Keys) -> Kind
    ensures { number result ≡ cyclic_kind mode signal reading keys }
{
    if asks_increased(mode, signal, reading, keys) {
        return Kind::Increased;
    }
    let eased = eased(reading, keys);
    if record::pre_or_vyl(mode) & !eased {
        return Kind::Ordinary;
    }
    Kind::None
}

#[tactic(auto, unfolding(crate::specs::Kind::number, crate::specs::Cyclic::cycle_length))]
fn cycle_length(card: InRange<Card>, kind: Kind) -> u16
    ensures { (result ≡ cycle_length card.it (number kind)) × ((increased_cycle ≤ result) × (result ≤ most_cycle)) }
{
    match kind {
        Kind::Increased => INCREASED_CYCLE,
        _ => card.it.cycle,
    }
}

// Step 7: the count, its lapse and its prompt. A cycle is longer than its prompt, so a count of 0 shows none.
#[tactic(auto,
// `==` of kinds compares their numbers
using(crate::proofs::Numbers::tag_number), unfolding(
// what the tick leaves and shows
crate::specs::Cyclic::cyclic_lapses, crate::specs::Cyclic::cyclic_ticks, crate::specs::Cyclic::cyclic_prompts))]
pub fn step_7_cyclic(
    card: InRange<Card>,
    kind: Kind,
    old: InRange<Cyclic>,
    keys: Keys,
) -> CyclicStep
    ensures { (result ≡ step_7_cyclic card.it (number kind) old.it keys) × CyclicRanges result.cyclic }
{
    let length = cycle_length(card, kind);
    let number = u8::from(kind);
    let confirms = keys.vigilance & ((kind == Kind::Ordinary) | (85 <= old.it.ticks));
    let restarted = CyclicStep {
        cyclic: Cyclic {
            kind: number,
            ticks: 0,
        },
        lapses: false,
        prompts: false,
    };
    if (kind == Kind::None) | (number != old.it.kind) | confirms {
        return restarted;
    }
    let ticks = old.it.ticks + 1;
    if length <= ticks {
        return CyclicStep {
            lapses: true,
            ..restarted
        };
    }
    CyclicStep {
        cyclic: Cyclic {
            kind: number,
            ticks: ticks,
        },
        lapses: false,
        prompts: length - PROMPT_TICKS <= ticks,
    }
}
