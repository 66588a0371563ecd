// What the desk holds but its card and n: a fresh state, its ranges, and step 1, which clears of it what a new mode clears.
#![tactic(auto)]

ghost use Rattle.std.specs.Prelude.{◌≡◌, ◌≤◌};
ghost use Rattle.record.specs.Modes.{pos, zav};
ghost use Rattle.state.specs.State.{fresh_state, StateRanges, state_in_range};
ghost use Rattle.state.specs.Mode.{mode_now, step_1_mode};
ghost use Rattle.state.specs.Laws.{state_laws};

use cyclic::Cyclic;
use onetime::Prompt;
use ranges::{InRange, Ranged};
use record::Record;
use signal::Signal;

// All that the desk holds but its card and n.
#[repr(C)]
#[derive(Clone, Copy, Default, PartialEq, Eq)]
pub struct State {
    // a mode by its number, which C reads in `foldharbor_desk` and may hand over out of range
    pub mode: u8,
    // the three buttons of the last tick: vigilance, PLUS, MAN
    pub buttons: u8,
    pub signal: Signal,
    pub prompt: Prompt,
    pub cyclic: Cyclic,
    // d, the distance driven the wrong way
    pub wrongway: u16,
    // h, the ticks that the train has stood unbraked
    pub standing: u16,
    pub causes: u8,
}

// All three buttons.
const ALL_BUTTONS: u8 = 7;

impl Ranged for State {
    ghost ranges = { StateRanges };

    ghost test = { state_in_range };

    ghost laws = { state_laws };

    #[tactic(auto, unfolding(crate::specs::State::state_in_range))]
    fn in_range(self) -> bool {
        (record::POS <= self.mode)
            & (self.mode <= record::ZAV)
            & (self.buttons <= ALL_BUTTONS)
            & self.signal.in_range()
            & self.prompt.in_range()
            & self.cyclic.in_range()
            & (self.wrongway <= motion::MOST_WRONGWAY)
            & (self.standing <= card::LONG_WAIT)
            & (self.causes <= causes::ALL_HELD)
    }
}

#[tactic(auto, using(crate::proofs::Ranges::fresh_ranges))]
pub fn fresh_state() -> InRange<State>
    ensures { result.it ≡ fresh_state }
{
    InRange {
        it: State {
            mode: record::POS,
            ..State::default()
        },
    }
}

#[tactic(auto, unfolding(crate::specs::Mode::mode_now))]
fn mode_now(state: InRange<State>, reading: InRange<Record>) -> u8
    ensures { (result ≡ mode_now state.it reading.it) × ((pos ≤ result) × (result ≤ zav)) }
{
    if reading.it.v == 0 {
        return reading.it.mode;
    }
    state.it.mode
}

// Step 1.
#[tactic(auto, unfolding(crate::specs::Mode::step_1_mode), using(crate::proofs::Keeps::step_1_mode_ranges))]
pub fn step_1_mode(state: InRange<State>, reading: InRange<Record>) -> InRange<State>
    ensures { result.it ≡ step_1_mode state.it reading.it }
{
    let mode = mode_now(state, reading);
    let old = state.it;
    if mode == old.mode {
        if mode == record::PRE {
            return state;
        }
        return InRange {
            it: State {
                signal: Signal::default(),
                prompt: Prompt::default(),
                ..old
            },
        };
    }
    InRange {
        it: State {
            mode: mode,
            buttons: old.buttons,
            causes: old.causes,
            ..State::default()
        },
    }
}
