// Step 8 of a tick: one-time vigilance.
#![tactic(auto)]

ghost use Rattle.std.specs.Prelude.{◌≡◌, ◌≤◌};
ghost use Rattle.signal.specs.Ranges.{farthest_ahead};
ghost use Rattle.onetime.specs.Ranges.{PromptRanges, OneTimeStepRanges, prompt_in_range};
ghost use Rattle.onetime.specs.Laws.{prompt_laws};
ghost use Rattle.onetime.specs.OneTime.{lead, exceeds, due_ahead, due_at_start, step_8_one_time};

use card::Card;
use ranges::{InRange, Ranged};
use reading::Speed;
use record::Keys;
use signal::Curve;

// The prompt of one-time vigilance.
#[repr(C)]
#[derive(Clone, Copy, Default, PartialEq, Eq)]
pub struct Prompt {
    // u, 1 from the tick in which the prompt comes; 0: no prompt
    pub ticks: u8,
    // 0 at the curve's start, 1 ahead of the curve: a number, which C reads in `foldharbor_prompt` and may hand over out of range
    pub kind: u8,
}

// What step 8 finds.
#[derive(Clone, Copy)]
pub struct OneTimeStep {
    pub prompt: Prompt,
    // w of the curve
    pub prompted: u8,
    // NZ1 is triggered
    pub lapses: bool,
}

// The most that a desk holds as u.
const MOST_PROMPT: u8 = 35;

// A prompt lapses when its u comes to this.
const LAPSE: u8 = 35;

impl Ranged for Prompt {
    ghost ranges = { PromptRanges };

    ghost test = { prompt_in_range };

    ghost laws = { prompt_laws };

    fn in_range(self) -> bool {
        (self.ticks <= MOST_PROMPT) & (self.kind <= 1)
    }
}

#[tactic(auto, unfolding(crate::specs::OneTime::lead))]
fn lead(card: Card) -> u32
    ensures { (result ≡ lead card) × (result ≤ 150) }
{
    if card.set <= 1000 {
        return 150;
    }
    100
}

// Compared by squares, so that no root is needed.
#[tactic(auto, using(crate::proofs::Squares::exceeds_by_squares, crate::proofs::Squares::slow_never))]
fn exceeds(card: InRange<Card>, curve: InRange<Curve>, t: Speed, v: Speed, driven: u32) -> bool
    requires { driven ≤ farthest_ahead }
    ensures { result ≡ exceeds card.it curve.it t.tenths v.tenths driven }
{
    if v.tenths <= card.it.tolerance {
        return false;
    }
    let bound = signal::curve_bound(card, curve, t, driven);
    bound < signal::five_squares(v.tenths - card.it.tolerance)
}

// Step 8, with a curve: whether the prompt ahead of the curve is due.
#[tactic(auto, unfolding(crate::specs::OneTime::due_ahead))]
fn due_ahead(card: InRange<Card>, curve: InRange<Curve>, t: Speed, v: Speed) -> bool
    ensures { result ≡ due_ahead card.it curve.it t.tenths v.tenths }
{
    if curve.it.prompted == 0 {
        let lead = lead(card.it);
        return exceeds(
            card,
            curve,
            t,
            v,
            curve.it.driven + (v.tenths as u32) * lead,
        );
    }
    false
}

// Step 8, with a curve: whether the prompt at the curve's start is due.
#[tactic(auto, unfolding(crate::specs::OneTime::due_at_start))]
fn due_at_start(
    card: InRange<Card>,
    curve: InRange<Curve>,
    begins: bool,
    t: Speed,
    v: Speed,
) -> bool
    ensures { result ≡ due_at_start card.it curve.it t.tenths v.tenths begins }
{
    if begins {
        let lead = lead(card.it);
        let late = exceeds(card, curve, t, v, (v.tenths as u32) * (99 + lead));
        return !late & (t.tenths + card.it.tolerance < v.tenths);
    }
    false
}

// Step 8.
#[tactic(auto, unfolding(
// what becomes of a prompt
crate::specs::OneTime::prompt_lapses, crate::specs::OneTime::prompt_stays,
// which one comes
crate::specs::OneTime::asks_ahead, crate::specs::OneTime::asks_at_start,
// what the next tick starts from
crate::specs::OneTime::prompt_ticks_next, crate::specs::OneTime::prompt_kind_next, crate::specs::OneTime::prompted_next))]
pub fn step_8_one_time(
    card: InRange<Card>,
    curve: InRange<Curve>,
    begins: bool,
    t: Speed,
    v: Speed,
    keys: Keys,
    prompt: InRange<Prompt>,
) -> OneTimeStep
    ensures { (result ≡ step_8_one_time card.it curve.it begins t.tenths v.tenths keys prompt.it) × OneTimeStepRanges result }
{
    let quiet = OneTimeStep {
        prompt: Prompt::default(),
        prompted: curve.it.prompted,
        lapses: false,
    };
    if 0 < prompt.it.ticks {
        if keys.vigilance {
            return quiet;
        }
        if LAPSE <= prompt.it.ticks + 1 {
            return OneTimeStep {
                lapses: true,
                ..quiet
            };
        }
        return OneTimeStep {
            prompt: Prompt {
                ticks: prompt.it.ticks + 1,
                kind: prompt.it.kind,
            },
            ..quiet
        };
    }
    if 0 < curve.it.start {
        if due_ahead(card, curve, t, v) {
            return OneTimeStep {
                prompt: Prompt { ticks: 1, kind: 1 },
                prompted: 1,
                lapses: false,
            };
        }
        if due_at_start(card, curve, begins, t, v) {
            return OneTimeStep {
                prompt: Prompt { ticks: 1, kind: 0 },
                ..quiet
            };
        }
    }
    quiet
}
