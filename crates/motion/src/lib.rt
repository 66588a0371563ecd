// Step 9 of a tick: which way the train moves, and how long it has stood.
#![tactic(auto)]

ghost use Rattle.std.specs.Prelude.{◌≡◌, ◌≤◌};
ghost use Rattle.card.specs.Card.{long_wait};
ghost use Rattle.motion.specs.Direction.{most_wrongway, agrees, step_9_direction};
ghost use Rattle.motion.specs.Standing.{step_9_standing};

use card::Card;
use ranges::InRange;
use record::{Keys, Record};

// The wrong-way distance d after step 9, and whether it triggers NZ3.
#[derive(Clone, Copy)]
pub struct DirectionStep {
    pub wrongway: u16,
    pub triggers: bool,
}

// The standing h after step 9, whether it triggers NZ5, and whether ZS20 sounds.
#[derive(Clone, Copy)]
pub struct StandingStep {
    pub standing: u16,
    pub triggers: bool,
    pub sounds: bool,
}

// The wrong-way distance that triggers NZ3.
pub const MOST_WRONGWAY: u16 = 3600;

// ZS20 sounds for so many ticks before NZ5.
const ZS20_TICKS: u16 = 100;

fn agrees(reading: Record, keys: Keys) -> bool
    ensures { result ≡ agrees reading keys }
{
    keys.cab & (reading.lever == reading.sense) & (reading.lever != 0)
}

// Step 9, NZ3.
#[tactic(auto, unfolding(crate::specs::Direction::wrongway_now, crate::specs::Direction::wrongway_triggers))]
pub fn step_9_direction(
    mode: u8,
    reading: InRange<Record>,
    keys: Keys,
    wrongway: u16,
) -> DirectionStep
    requires { wrongway ≤ most_wrongway }
    ensures { (result ≡ step_9_direction mode reading.it keys wrongway) × (result.wrongway ≤ most_wrongway) }
{
    if record::pre_or_vyl(mode) & (0 < reading.it.v) {
        if agrees(reading.it, keys) {
            return DirectionStep {
                wrongway: 0,
                triggers: false,
            };
        }
        let far = MOST_WRONGWAY.min(wrongway + reading.it.v);
        return DirectionStep {
            wrongway: far,
            triggers: far == MOST_WRONGWAY,
        };
    }
    DirectionStep {
        wrongway: wrongway,
        triggers: false,
    }
}

// Step 9, NZ5. A wait is longer than ZS20, so a count of 0 neither triggers nor sounds.
#[tactic(auto,
// a wait has at least 250 ticks
using(card::proofs::Ranges::wait_between), unfolding(
// h after the tick
crate::specs::Standing::counted, crate::specs::Standing::standing_now,
// what h brings about
crate::specs::Standing::standing_triggers, crate::specs::Standing::standing_sounds))]
pub fn step_9_standing(
    card: InRange<Card>,
    mode: u8,
    reading: Record,
    keys: Keys,
    held: bool,
    standing: u16,
) -> StandingStep
    requires { standing ≤ long_wait }
    ensures { (result ≡ step_9_standing card.it mode reading keys held standing) × (result.standing ≤ long_wait) }
{
    if record::pre_or_vyl(mode) {
        let unbraked = (reading.v == 0) & !keys.brake & (reading.band == record::TOP_BAND);
        if unbraked & !(keys.vigilance & held) {
            let count = card.it.wait.min(standing + 1);
            return StandingStep {
                standing: count,
                triggers: count == card.it.wait,
                sounds: card.it.wait - ZS20_TICKS <= count,
            };
        }
        return StandingStep {
            standing: 0,
            triggers: false,
            sounds: false,
        };
    }
    StandingStep {
        standing: standing,
        triggers: false,
        sounds: false,
    }
}
