// MAN, the braking curve and the signal speed: steps 2 to 6 of a tick, in PRE.
#![tactic(auto)]

ghost use Rattle.std.specs.Prelude.{◌≡◌, false, eqb, ◌+◌, ◌≤◌};
ghost use Rattle.reading.specs.Speed.{top_speed};
ghost use Rattle.signal.specs.Ranges.{farthest, farthest_ahead, curve_in_range, signal_in_range};
ghost use Rattle.signal.specs.Ranges.{CurveRanges, SignalRanges, NewCodeRanges, CurveStepRanges, SignalStepRanges};
ghost use Rattle.signal.specs.Laws.{curve_laws, signal_laws};
ghost use Rattle.signal.specs.Value.{five_squares, Largest, curve_bound, curve_value};
ghost use Rattle.signal.specs.Speed.{signal_speed};
ghost use Rattle.signal.specs.NewCode.{old_speed, gap_man, step_2_new_code};
ghost use Rattle.signal.specs.Man.{step_4_man};
ghost use Rattle.signal.specs.Curve.{driven_now, step_5_curve};
ghost use Rattle.signal.specs.Steps.{steps_2_to_6};

use card::Card;
use codes::Codes;
use ranges::{InRange, Ranged};
use reading::Speed;
use record::{Keys, Record};

// The braking curve. Like the signals below it lies in the desk that C reads and writes: no curve is a 0 there, and a yes or no a byte.
#[repr(C)]
#[derive(Clone, Copy, Default, PartialEq, Eq)]
pub struct Curve {
    // V0, the speed it starts from; 0: no curve
    pub start: u16,
    // E, the sum of v since it began
    pub driven: u32,
    // w, whether its prompt of kind 1 was given
    pub prompted: u8,
}

// What the desk holds of the signals.
#[repr(C)]
#[derive(Clone, Copy, Default, PartialEq, Eq)]
pub struct Signal {
    pub codes: Codes,
    pub curve: Curve,
    // M, the speed under MAN; 0: MAN is off
    pub man: u16,
}

// MAN and the curve as step 2 leaves them, and whether the curve begins.
#[derive(Clone, Copy)]
pub struct NewCode {
    pub man: u16,
    pub curve: Curve,
    pub begins: bool,
}

// The curve and M as step 5 leaves them.
#[derive(Clone, Copy)]
pub struct CurveStep {
    pub curve: Curve,
    pub man: u16,
}

// What steps 2 to 6 find: the signals, T, whether a curve begins, and the signal speed.
#[derive(Clone, Copy)]
pub struct SignalStep {
    pub signal: Signal,
    pub target: u16,
    pub begins: bool,
    pub speed: u16,
}

// The most that a desk holds as E.
const FARTHEST: u32 = 6250000;

// MAN never goes below this speed.
const LEAST_MAN: u16 = 1200;

impl Ranged for Curve {
    ghost ranges = { CurveRanges };

    ghost test = { curve_in_range };

    ghost laws = { curve_laws };

    #[tactic(auto, unfolding(crate::specs::Ranges::curve_in_range))]
    fn in_range(self) -> bool {
        (self.start <= reading::TOP_SPEED) & (self.driven <= FARTHEST) & (self.prompted <= 1)
    }
}

impl Ranged for Signal {
    ghost ranges = { SignalRanges };

    ghost test = { signal_in_range };

    ghost laws = { signal_laws };

    #[tactic(auto, unfolding(crate::specs::Ranges::curve_in_range, crate::specs::Ranges::signal_in_range))]
    fn in_range(self) -> bool {
        self.codes.in_range() & self.curve.in_range() & (self.man <= reading::TOP_SPEED)
    }
}

// 5·w², by which speeds are compared without a root.
pub fn five_squares(w: u16) -> u32
    requires { w ≤ top_speed + 1 }
    ensures { result ≡ five_squares w }
{
    5 * ((w as u32) * (w as u32))
}

// What 5·w² is held to for the curve's value at E: max(5·T², 5·V0² − r·E). Card, curve and T stay apart, as the definition has them: a call
// here has now the old curve or T and now the new one.
#[tactic(auto, using(crate::proofs::Value::bound_most, crate::proofs::Value::spent_most), unfolding(crate::specs::Value::curve_bound))]
pub fn curve_bound(card: InRange<Card>, curve: InRange<Curve>, t: Speed, driven: u32) -> u32
    requires { driven ≤ farthest_ahead }
    ensures { (result ≡ curve_bound card.it curve.it t.tenths driven) × (result ≤ five_squares top_speed) }
{
    let least = five_squares(t.tenths);
    let most = five_squares(curve.it.start);
    let spent = (card.it.deceleration as u32) * driven;
    if most <= least + spent {
        return least;
    }
    most - spent
}

// The curve's value at E.
#[tactic(auto, using(crate::proofs::Value::speed_by_squares, crate::proofs::Value::root_largest, crate::proofs::Value::root_value))]
fn curve_value(card: InRange<Card>, curve: InRange<Curve>, t: Speed, driven: u32) -> Speed
    requires { driven ≤ farthest_ahead }
    ensures largest { Largest (curve_bound card.it curve.it t.tenths driven) result.tenths }
    ensures value { result.tenths ≡ curve_value card.it curve.it t.tenths driven }
{
    let bound = curve_bound(card, curve, t, driven);
    Speed {
        tenths: root::root(bound / 5) as u16,
    }
}

// Whether the curve's value at E equals T: the next speed above T is too high. Where it is not, E is in range.
#[tactic(auto, using(crate::proofs::Value::over_by_squares, crate::proofs::Value::not_over_most))]
fn curve_over(card: InRange<Card>, curve: InRange<Curve>, t: Speed, driven: u32) -> bool
    requires { driven ≤ farthest_ahead }
    ensures over { result ≡ eqb (curve_value card.it curve.it t.tenths driven) t.tenths }
    ensures near { result ≡ false → driven ≤ farthest }
{
    let bound = curve_bound(card, curve, t, driven);
    bound < five_squares(t.tenths + 1)
}

#[tactic(auto, unfolding(crate::specs::Speed::signal_speed))]
fn signal_speed(card: InRange<Card>, curve: InRange<Curve>, man: Speed, t: Speed) -> Speed
    ensures { result.tenths ≡ signal_speed card.it curve.it man.tenths t.tenths }
{
    if 0 < man.tenths {
        return man;
    }
    if 0 < curve.it.start {
        return curve_value(card, curve, t, curve.it.driven);
    }
    t
}

#[tactic(auto, unfolding(crate::specs::NewCode::gap_man))]
fn gap_man(card: InRange<Card>, signal: Signal, reading: Record) -> bool
    ensures { result ≡ gap_man card.it signal reading }
{
    let t = codes::target(card, reading.code, 0);
    let old = codes::target(card, signal.codes.interrupted, 0);
    (signal.codes.last == record::NONE)
        & (signal.codes.interrupted != record::NONE)
        & (50 < signal.codes.gap)
        & (t.tenths < old.tenths)
}

// S0, the signal speed of the tick before.
fn old_speed(card: InRange<Card>, signal: InRange<Signal>) -> Speed
    ensures { result.tenths ≡ old_speed card.it signal.it }
{
    let codes = signal.it.codes;
    signal_speed(
        card,
        InRange {
            it: signal.it.curve,
        },
        Speed {
            tenths: signal.it.man,
        },
        codes::target(card, codes.last, codes.raise),
    )
}

// Step 2: what the code does to MAN and the curve.
#[tactic(auto, unfolding(crate::specs::NewCode::man_by_code, crate::specs::NewCode::curve_by_code, crate::specs::NewCode::curve_begins))]
fn step_2_new_code(
    card: InRange<Card>,
    signal: InRange<Signal>,
    reading: InRange<Record>,
) -> NewCode
    ensures { (result ≡ step_2_new_code card.it signal.it reading.it) × NewCodeRanges result }
{
    let as_it_was = NewCode {
        man: signal.it.man,
        curve: signal.it.curve,
        begins: false,
    };
    if reading.it.code == signal.it.codes.last {
        return as_it_was;
    }
    let t = codes::target(card, reading.it.code, 0).tenths;
    let v = reading.it.v;
    if (0 < signal.it.man) & (t <= v) {
        return as_it_was;
    }
    if gap_man(card, signal.it, reading.it) {
        return NewCode {
            man: LEAST_MAN.max(v),
            curve: Curve::default(),
            begins: false,
        };
    }
    let old = old_speed(card, signal).tenths;
    if t < old {
        return NewCode {
            man: 0,
            curve: Curve {
                start: old,
                ..Curve::default()
            },
            begins: true,
        };
    }
    NewCode {
        man: 0,
        curve: Curve::default(),
        begins: false,
    }
}

// Step 4.
#[tactic(auto, unfolding(crate::specs::Man::step_4_man))]
fn step_4_man(was: u16, now: Speed, unchanged: bool, t: Speed, v: Speed) -> Speed
    ensures { result.tenths ≡ step_4_man was now.tenths unchanged t.tenths v.tenths }
{
    if (0 < was) & (0 < now.tenths) {
        if unchanged & (v.tenths <= t.tenths) {
            return Speed { tenths: 0 };
        }
        return Speed {
            tenths: LEAST_MAN.max(now.tenths.min(v.tenths)),
        };
    }
    now
}

// Step 5: E with this tick's v; the first tick of a curve adds nothing.
#[tactic(auto, unfolding(crate::specs::Curve::driven_now))]
fn driven_now(curve: InRange<Curve>, begins: bool, v: Speed) -> u32
    ensures { (result ≡ driven_now curve.it begins v.tenths) × (result ≤ farthest + top_speed) }
{
    if begins {
        return curve.it.driven;
    }
    curve.it.driven + (v.tenths as u32)
}

// Step 5, with M as step 4 leaves it.
#[tactic(auto, unfolding(crate::specs::Curve::curve_holds, crate::specs::Curve::man_starts, crate::specs::Curve::curve_now, crate::specs::Curve::man_now))]
fn step_5_curve(
    card: InRange<Card>,
    curve: InRange<Curve>,
    begins: bool,
    t: Speed,
    v: Speed,
    keys: Keys,
    man: Speed,
) -> CurveStep
    ensures { (result ≡ step_5_curve card.it curve.it begins t.tenths v.tenths keys man.tenths) × CurveStepRanges result }
{
    if 0 < curve.it.start {
        let driven = driven_now(curve, begins, v);
        if curve_over(card, curve, t, driven) {
            return CurveStep {
                curve: Curve::default(),
                man: man.tenths,
            };
        }
        if keys.man | keys.loss {
            return CurveStep {
                curve: Curve::default(),
                man: LEAST_MAN.max(v.tenths),
            };
        }
        return CurveStep {
            curve: Curve { driven, ..curve.it },
            man: man.tenths,
        };
    }
    CurveStep {
        curve: curve.it,
        man: man.tenths,
    }
}

// Steps 2 to 6.
#[tactic(auto, using(crate::proofs::Keeps::steps_2_to_6_ranges), unfolding(crate::specs::Steps::steps_2_to_6))]
pub fn steps_2_to_6(
    card: InRange<Card>,
    signal: InRange<Signal>,
    reading: InRange<Record>,
    keys: Keys,
) -> SignalStep
    ensures { (result ≡ steps_2_to_6 card.it signal.it reading.it keys) × SignalStepRanges result }
{
    let unchanged = reading.it.code == signal.it.codes.last;
    let v = Speed {
        tenths: reading.it.v,
    };
    let by_code = step_2_new_code(card, signal, reading);
    let old = InRange {
        it: signal.it.codes,
    };
    let codes = codes::codes_next(old, reading, keys).it;
    let t = codes::target(card, reading.it.code, codes.raise);
    let by_code_man = Speed {
        tenths: by_code.man,
    };
    let lowered = step_4_man(signal.it.man, by_code_man, unchanged, t, v);
    let by_code_curve = InRange { it: by_code.curve };
    let CurveStep { curve, man } = step_5_curve(
        card,
        by_code_curve,
        by_code.begins,
        t,
        v,
        keys,
        lowered,
    );
    let speed = signal_speed(card, InRange { it: curve }, Speed { tenths: man }, t);
    SignalStep {
        signal: Signal { codes, curve, man },
        target: t.tenths,
        begins: by_code.begins,
        speed: speed.tenths,
    }
}
