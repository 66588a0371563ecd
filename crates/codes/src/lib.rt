// The code on the rail: its target, the gap before it, and the raise by PLUS. Steps 2 and 3 of a tick, in PRE.
#![tactic(auto)]

ghost use Rattle.std.specs.Prelude.{◌≡◌, ◌≤◌};
ghost use Rattle.record.specs.Codes.{clear};
ghost use Rattle.codes.specs.Ranges.{longest_gap, most_raise, CodesRanges, codes_in_range};
ghost use Rattle.codes.specs.Laws.{codes_laws};
ghost use Rattle.codes.specs.Target.{target};
ghost use Rattle.codes.specs.Gap.{interrupted_next, gap_next};
ghost use Rattle.codes.specs.Plus.{raise_by_code, step_3_plus, codes_next};

use card::Card;
use ranges::{InRange, Ranged};
use reading::Speed;
use record::{Keys, Record};

// The last code, the gap and the raise. A part of the desk that C reads and writes: a code is a byte there, in range or not.
#[repr(C)]
#[derive(Clone, Copy, Default, PartialEq, Eq)]
pub struct Codes {
    // the last code
    pub last: u8,
    // k, the code that a gap interrupted
    pub interrupted: u8,
    // g, the gap in ticks
    pub gap: u8,
    pub raise: u8,
}

const LONGEST_GAP: u8 = 51;

const MOST_RAISE: u8 = 4;

impl Ranged for Codes {
    ghost ranges = { CodesRanges };

    ghost test = { codes_in_range };

    ghost laws = { codes_laws };

    fn in_range(self) -> bool {
        (self.last <= record::CLEAR)
            & (self.interrupted <= record::CLEAR)
            & (self.gap <= LONGEST_GAP)
            & (self.raise <= MOST_RAISE)
    }
}

// T of a code.
#[tactic(auto, unfolding(crate::specs::Target::target))]
pub fn target(card: InRange<Card>, code: u8, raise: u8) -> Speed
    requires { raise ≤ most_raise }
    ensures { result.tenths ≡ target card.it code raise }
{
    let tenths = match code {
        record::STOP => card.it.stop,
        record::FORTY => 400 + 200 * (raise as u16),
        // a guard: with an arm of two codes the match becomes a table of jumps, and a tick on a curve misses the goal of docs/TIMES.md
        _ if (code == record::NONE) | (code == record::WARNING) => 1200,
        _ => 1600,
    };
    Speed { tenths }
}

// Step 2: k.
#[tactic(auto, unfolding(crate::specs::Gap::interrupted_next))]
fn interrupted_next(codes: InRange<Codes>, reading: Record) -> u8
    ensures { (result ≡ interrupted_next codes.it reading) × (result ≤ clear) }
{
    if reading.code == codes.it.last {
        return codes.it.interrupted;
    }
    if reading.code == record::NONE {
        return codes.it.last;
    }
    if codes.it.last == record::NONE {
        return 0;
    }
    codes.it.interrupted
}

// Step 2: g.
#[tactic(auto, unfolding(crate::specs::Gap::gap_next))]
fn gap_next(codes: InRange<Codes>, reading: Record) -> u8
    ensures { (result ≡ gap_next codes.it reading) × (result ≤ longest_gap) }
{
    if reading.code == codes.it.last {
        if reading.code == record::NONE {
            return LONGEST_GAP.min(codes.it.gap + 1);
        }
        return codes.it.gap;
    }
    if reading.code == record::NONE {
        return 1;
    }
    if codes.it.last == record::NONE {
        return 0;
    }
    codes.it.gap
}

#[tactic(auto, unfolding(crate::specs::Plus::raise_by_code))]
fn raise_by_code(codes: InRange<Codes>, reading: Record) -> u8
    ensures { (result ≡ raise_by_code codes.it reading) × (result ≤ most_raise) }
{
    if reading.code == codes.it.last {
        return codes.it.raise;
    }
    0
}

// Step 3.
#[tactic(auto, unfolding(crate::specs::Plus::step_3_plus))]
fn step_3_plus(codes: InRange<Codes>, reading: Record, keys: Keys) -> u8
    ensures { (result ≡ step_3_plus codes.it reading keys) × (result ≤ most_raise) }
{
    let raise = raise_by_code(codes, reading);
    if keys.plus & (reading.code == record::FORTY) & (raise < MOST_RAISE) {
        return raise + 1;
    }
    raise
}

// Steps 2 and 3: the codes that the next tick starts from.
#[tactic(auto, using(crate::proofs::Keeps::codes_next_ranges), unfolding(crate::specs::Plus::codes_next))]
pub fn codes_next(codes: InRange<Codes>, reading: InRange<Record>, keys: Keys) -> InRange<Codes>
    ensures { result.it ≡ codes_next codes.it reading.it keys }
{
    let interrupted = interrupted_next(codes, reading.it);
    let gap = gap_next(codes, reading.it);
    let raise = step_3_plus(codes, reading.it, keys);
    InRange {
        it: Codes {
            last: reading.it.code,
            interrupted,
            gap,
            raise,
        },
    }
}
