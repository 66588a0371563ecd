// One whole tick: the ten steps in their order, and the answer.
#![tactic(auto)]

ghost use Rattle.std.specs.Prelude.{◌≡◌, ◌+◌, ◌≤◌, length};
ghost use Rattle.layout.specs.Layout.{written};
ghost use Rattle.reading.specs.Speed.{top_speed};
ghost use Rattle.signal.specs.Ranges.{SignalStepRanges};
ghost use Rattle.state.specs.State.{StateRanges};
ghost use Rattle.rules.specs.Permitted.{ceiling, step_6_permitted};
ghost use Rattle.rules.specs.Answer.{marks, answer_width, answer_bytes, answer_at, put_answer};
ghost use Rattle.rules.specs.Tick.{keys_in, signal_in, triggers_in, state_next, steps_2_to_10, advance};
ghost use Rattle.rules.specs.Findings.{steps_2_to_9};

use card::Card;
use causes::{Causes, Mask};
use cyclic::CyclicStep;
use layout::{byte_at, u16_at};
use motion::{DirectionStep, StandingStep};
use onetime::OneTimeStep;
use ranges::InRange;
use reading::Speed;
use record::{Keys, Record};
use signal::{Curve, Signal, SignalStep};
use state::State;

// What steps 2 to 9 find, in the state as step 1 leaves it.
#[derive(Clone, Copy)]
pub struct Findings {
    pub keys: Keys,
    pub signal: SignalStep,
    // P
    pub permitted: u16,
    pub cyclic: CyclicStep,
    pub onetime: OneTimeStep,
    pub direction: DirectionStep,
    pub standing: StandingStep,
}

// What the desk shows after a tick.
#[repr(C)]
#[derive(Clone, Copy, Default, PartialEq, Eq)]
pub struct Answer {
    // P
    pub permitted: u16,
    // T
    pub target: u16,
    pub marks: u8,
    pub causes: u8,
    pub lowest: u8,
    pub held: u8,
}

// What a tick gives. The definitions `advance` and `after` build it, so the fact that its state is in range stands in clauses and not in a field.
#[derive(Clone, Copy)]
pub struct AfterTick {
    pub state: State,
    pub answer: Answer,
}

// A tick after step 1: the state is as step 1 leaves it, and the findings are what steps 2 to 9 find of it.
#[derive(Clone, Copy)]
struct Found {
    card: InRange<Card>,
    state: InRange<State>,
    reading: InRange<Record>,
    findings: Findings,
    ghost found: { findings ≡ steps_2_to_9 card.it state.it reading.it },
}

// Steps 2 to 6, in PRE alone.
#[tactic(auto, unfolding(crate::specs::Tick::signal_in))]
fn signal_in(
    card: InRange<Card>,
    state: InRange<State>,
    reading: InRange<Record>,
    keys: Keys,
) -> SignalStep
    requires { keys ≡ keys_in card.it state.it reading.it }
    ensures { (result ≡ signal_in card.it state.it reading.it) × SignalStepRanges result }
{
    let signal = state.it.signal;
    if state.it.mode == record::PRE {
        return signal::steps_2_to_6(card, InRange { it: signal }, reading, keys);
    }
    SignalStep {
        signal: signal,
        target: 0,
        begins: false,
        speed: 0,
    }
}

#[tactic(auto, unfolding(crate::specs::Permitted::ceiling))]
fn ceiling(card: InRange<Card>, mode: u8) -> Speed
    ensures { result.tenths ≡ ceiling card.it mode }
{
    let tenths = match mode {
        record::POS => card.it.pos,
        record::PRE => 1600,
        record::VYL => 1200,
        _ => card.it.zav,
    };
    Speed { tenths: tenths }
}

// Step 6: P.
#[tactic(auto, unfolding(crate::specs::Permitted::step_6_permitted))]
fn step_6_permitted(card: InRange<Card>, mode: u8, speed: u16) -> Speed
    ensures { result.tenths ≡ step_6_permitted card.it mode speed }
{
    let train = card.it.design.min(ceiling(card, mode).tenths);
    let least = train.min(card.it.set.min(card.it.highest));
    if mode == record::PRE {
        return Speed {
            tenths: least.min(speed),
        };
    }
    Speed { tenths: least }
}

// Steps 2 to 9.
fn steps_2_to_9(card: InRange<Card>, state: InRange<State>, reading: InRange<Record>) -> Findings
    ensures { result ≡ steps_2_to_9 card.it state.it reading.it }
{
    let old = state.it;
    let keys = record::keys_of(reading.it.flags, old.buttons);
    let signal = signal_in(card, state, reading, keys);
    let permitted = step_6_permitted(card, old.mode, signal.speed);
    let kind = cyclic::cyclic_kind(old.mode, signal.signal, reading.it, keys);
    let cyclic = cyclic::step_7_cyclic(card, kind, InRange { it: old.cyclic }, keys);
    let onetime = onetime::step_8_one_time(
        card,
        InRange {
            it: signal.signal.curve,
        },
        signal.begins,
        Speed {
            tenths: signal.target,
        },
        Speed {
            tenths: reading.it.v,
        },
        keys,
        InRange { it: old.prompt },
    );
    let direction = motion::step_9_direction(old.mode, reading, keys, old.wrongway);
    let mask = Mask { bits: old.causes };
    let standing = motion::step_9_standing(
        card,
        old.mode,
        reading.it,
        keys,
        mask.held().nz5,
        old.standing,
    );
    Findings {
        keys: keys,
        signal: signal,
        permitted: permitted.tenths,
        cyclic: cyclic,
        onetime: onetime,
        direction: direction,
        standing: standing,
    }
}

impl Findings {
    // The marks of the answer.
    #[tactic(auto, unfolding(crate::specs::Answer::marks))]
    fn marks(self) -> u8
        ensures { result ≡ marks self.signal.signal self.cyclic self.onetime.prompt self.standing }
    {
        numbers::weight(0 < self.signal.signal.man, 1)
            + numbers::weight(0 < self.signal.signal.curve.start, 2)
            + numbers::weight(self.cyclic.prompts, 4)
            + numbers::weight(0 < self.onetime.prompt.ticks, 8)
            + numbers::weight(0 < self.onetime.prompt.kind, 16)
            + numbers::weight(self.standing.sounds, 32)
    }
}

impl Found {
    // Step 9: the triggers.
    #[tactic(auto, unfolding(crate::specs::Tick::triggers_in), using(crate::proofs::Keeps::permitted_in_most))]
    fn triggers_in(self) -> Causes
        ensures { result ≡ triggers_in self.card.it self.state.it self.reading.it }
    {
        let findings = self.findings;
        Causes {
            nz1: findings.cyclic.lapses | findings.onetime.lapses,
            nz2: findings.permitted + self.card.it.tolerance < self.reading.it.v,
            nz3: findings.direction.triggers,
            nz4: record::pre_or_vyl(self.state.it.mode) & findings.keys.remote,
            nz5: findings.standing.triggers,
        }
    }

    // Step 10, and the state that the next tick starts from.
    fn state_next(self) -> InRange<State>
        ensures { result.it ≡ state_next self.card.it self.state.it self.reading.it }
    {
        let triggered = self.triggers_in();
        let findings = self.findings;
        let signal = findings.signal.signal;
        let reading = self.reading.it;
        let mask = Mask {
            bits: self.state.it.causes,
        };
        let causes = mask.step_10(triggered, findings.permitted, reading, findings.keys);
        let wrongway = causes::step_10_wrongway(
            findings.direction.wrongway,
            self.state.it.causes,
            triggered,
            findings.permitted,
            reading,
            findings.keys,
        );
        InRange {
            it: State {
                mode: self.state.it.mode,
                buttons: reading.flags % 8,
                signal: Signal {
                    curve: Curve {
                        prompted: findings.onetime.prompted,
                        ..signal.curve
                    },
                    ..signal
                },
                prompt: findings.onetime.prompt,
                cyclic: findings.cyclic.cyclic,
                wrongway: wrongway,
                standing: findings.standing.standing,
                causes: causes.bits,
            },
        }
    }

    // Steps 2 to 10: the new state and the answer.
    #[tactic(auto, unfolding(crate::specs::Tick::state_next, crate::specs::Tick::answer_now, crate::specs::Tick::steps_2_to_10))]
    fn steps_2_to_10(self) -> AfterTick
        ensures { (result ≡ steps_2_to_10 self.card.it self.state.it self.reading.it) × StateRanges result.state }
    {
        let next = self.state_next();
        let findings = self.findings;
        let held = Mask {
            bits: next.it.causes,
        };
        AfterTick {
            state: next.it,
            answer: Answer {
                permitted: findings.permitted,
                target: findings.signal.target,
                marks: findings.marks(),
                causes: held.bits,
                lowest: held.lowest(),
                held: held.how_many(),
            },
        }
    }
}

// One tick: the new state and the answer.
#[tactic(auto, unfolding(crate::specs::Tick::advance))]
pub fn advance(card: InRange<Card>, state: InRange<State>, reading: InRange<Record>) -> AfterTick
    ensures { (result ≡ advance card.it state.it reading.it) × StateRanges result.state }
{
    let after_step_1 = state::step_1_mode(state, reading);
    let found = Found {
        card: card,
        state: after_step_1,
        reading: reading,
        findings: steps_2_to_9(card, after_step_1, reading),
    };
    found.steps_2_to_10()
}

// How many bytes an answer takes.
pub const ANSWER_WIDTH: usize = 8;

// The answer in the 8 bytes from `at`; a place past the end holds 0, which a `From` of an array couldn't say.
#[tactic(auto, unfolding(crate::specs::Answer::answer_at))]
pub fn answer_at(bytes: &[u8], at: usize) -> Answer
    ensures { result ≡ answer_at bytes.now at }
{
    Answer {
        permitted: u16_at(bytes, at, 0),
        target: u16_at(bytes, at, 2),
        marks: byte_at(bytes, at, 4),
        causes: byte_at(bytes, at, 5),
        lowest: byte_at(bytes, at, 6),
        held: byte_at(bytes, at, 7),
    }
}

// The answer's 8 bytes.
impl From<Answer> for [u8; ANSWER_WIDTH] {
    ghost from_gives = { λ answer bytes. bytes ≡ answer_bytes answer };

    fn from(answer: Answer) -> [u8; ANSWER_WIDTH] {
        let [permitted_low, permitted_high] = answer.permitted.to_le_bytes();
        let [target_low, target_high] = answer.target.to_le_bytes();
        [
            permitted_low,
            permitted_high,
            target_low,
            target_high,
            answer.marks,
            answer.causes,
            answer.lowest,
            answer.held,
        ]
    }
}

// Writes the answer's 8 bytes from `at`, where they are known to fit: no test.
pub fn write_answer(bytes: &mut [u8], at: usize, answer: Answer)
    requires { at + answer_width ≤ length bytes.old }
    ensures { bytes.new ≡ written bytes.old at (answer_bytes answer) }
{
    layout::put_bytes(bytes, at, answer.into());
}

// Writes the answer's 8 bytes from `at`; where they do not fit, nothing.
#[tactic(auto, unfolding(crate::specs::Answer::put_answer))]
pub fn put_answer(bytes: &mut [u8], at: usize, answer: Answer)
    ensures { bytes.new ≡ put_answer bytes.old at answer }
{
    layout::put_if_fits(bytes, at, answer.into());
}
