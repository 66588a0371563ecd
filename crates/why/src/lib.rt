// Why the valve is open: for each held cause the tick at which its present holding began, and that tick's record, told from the journal.
#![tactic(auto)]

ghost use Rattle.std.specs.Prelude.{◌≡◌, true, ◌*◌, ◌≤◌, length, IfOk};
ghost use Rattle.refusal.specs.Number.{number, number_of};
ghost use Rattle.record.specs.Record.{record_width};
ghost use Rattle.causes.specs.Cause.{Cause, among};
ghost use Rattle.journal.specs.Journal.{records};
ghost use Rattle.why.specs.Why.{refused, reason_of, rebuilt_refusal, all_reasons, why_refusal, why_outcome};
ghost use Rattle.why.specs.Told.{start_at, starts_at, retold, retold_refusal, start_of, StartFits, reasons_of};

use card::Card;
use causes::{Causes, PerCause};
use desk::Desk;
use ranges::InRange;
use record::{RECORD_WIDTH, Record};
use refusal::Refusal;
use state::State;

// Why a cause is held; zeros where it is not.
#[repr(C)]
#[derive(Clone, Copy, Default)]
pub struct Reason {
    // the tick at which its present holding began, from 1
    pub tick: u16,
    // that tick's record
    pub reading: Record,
}

// The number of the refusal, 0 where there is none, and of each cause why it is held.
// Not a `Result`: C reads this struct (`foldharbor_reasons`).
#[repr(C)]
#[derive(Clone, Copy, Default)]
pub struct Reasons {
    pub refusal: u8,
    pub nz1: Reason,
    pub nz2: Reason,
    pub nz3: Reason,
    pub nz4: Reason,
    pub nz5: Reason,
}

// Of each cause the last tick that made it held; 0 where none did.
pub type Starts = PerCause<u16>;

// What one pass over the records finds: the state that they rebuild, and the starts.
#[derive(Clone, Copy)]
pub struct Told {
    pub state: State,
    pub starts: Starts,
}

fn refused(refusal: Refusal) -> Reasons
    ensures { result ≡ refused (number refusal) }
{
    Reasons {
        refusal: u8::from(refusal),
        ..Reasons::default()
    }
}

// The start after a tick, by whether the cause was held before it and is after it.
fn start_at(tick: u16, was: bool, is: bool, start: u16) -> u16
    ensures { result ≡ start_at tick was is start }
{
    if is & !was { tick } else { start }
}

// The starts after a tick, by the causes before it and after it.
#[tactic(auto, unfolding(crate::specs::Told::starts_at))]
fn starts_at(tick: u16, before: u8, after: u8, starts: Starts) -> Starts
    ensures { result ≡ starts_at tick before after starts }
{
    let changes = causes::held_in(before).zip(causes::held_in(after), |was, is| (was, is));
    changes.zip(starts, |(was, is), start| start_at(tick, was, is, start))
}

// The first n records, each looked at, driven and told of in turn.
fn retold(card: InRange<Card>, journal: &[u8], n: u16) -> Result<Told, Refusal>
    requires records_there { record_width * n ≤ length journal.now }
    ensures { result ≡ retold card.it journal.now n }
{
    let mut state = state::fresh_state().it;
    let mut starts = Starts::default();
    for i in 0..n {
        let reading = record::record_at(journal, RECORD_WIDTH * (i as usize));
        let reading = InRange::of(reading).ok_or(Refusal::BadRecord)?;
        let tick = rules::advance(card, InRange { it: state }, reading);
        starts = starts_at(i + 1, state.causes, tick.state.causes, starts);
        state = tick.state;
    }
    Ok(Told { state, starts })
}

// 23, 14: of a desk by its records as they were told.
#[tactic(auto, using(crate::proofs::Order::told), unfolding(refusal::specs::Number::number_of, refusal::specs::Number::number))]
fn retold_refusal(desk: Desk, told: Told) -> Result<(), Refusal>
    ensures { number_of result ≡ retold_refusal desk told }
{
    let rebuilt = Desk {
        state: told.state,
        ..desk
    };
    if !same::same_desk(desk, rebuilt) {
        return Err(Refusal::OtherDesk);
    }
    if desk.state.causes == 0 {
        return Err(Refusal::ValveClosed);
    }
    Ok(())
}

// Why a cause is held, by its start.
#[tactic(auto, unfolding(crate::specs::Why::reason_of, journal::specs::Journal::records))]
fn reason_of(journal: &[u8], held: bool, start: u16) -> Reason
    requires { held ≡ true → StartFits start (length journal.now) }
    ensures { result ≡ reason_of (records journal.now) held start }
{
    if !held {
        return Reason::default();
    }
    Reason {
        tick: start,
        reading: record::record_at(journal, RECORD_WIDTH * (start as usize - 1)),
    }
}

// Why each cause is held, by the starts.
#[tactic(auto, unfolding(crate::specs::Told::reasons_of))]
fn reasons_of(journal: &[u8], held: Causes, starts: Starts) -> Reasons
    requires { (cause : Cause) → among cause held ≡ true → StartFits (start_of cause starts) (length journal.now) }
    ensures { result ≡ reasons_of (records journal.now) held starts }
{
    Reasons {
        refusal: 0,
        nz1: reason_of(journal, held.nz1, starts.nz1),
        nz2: reason_of(journal, held.nz2, starts.nz2),
        nz3: reason_of(journal, held.nz3, starts.nz3),
        nz4: reason_of(journal, held.nz4, starts.nz4),
        nz5: reason_of(journal, held.nz5, starts.nz5),
    }
}

// The reasons, or the first of the refusals.
#[tactic(auto, using(crate::proofs::Calls::of_why), unfolding(refusal::specs::Number::number_of))]
fn explained(desk: Desk, journal: &[u8]) -> Result<Reasons, Refusal>
    ensures refusal { number_of result ≡ why_refusal desk journal.now }
    ensures reasons { IfOk result (λ reasons. reasons ≡ all_reasons desk journal.now) }
{
    let fit = desk::fit_desk(desk, journal.len())?;
    let card = InRange { it: fit.it.card };
    let told = retold(card, journal, desk.n)?;
    retold_refusal(desk, told)?;
    let held = causes::held_in(desk.state.causes);
    Ok(reasons_of(journal, held, told.starts))
}

#[tactic(auto, using(crate::proofs::Calls::why_refused, crate::proofs::Calls::why_accepted), unfolding(refusal::specs::Number::number_of))]
pub fn why(desk: Desk, journal: &[u8]) -> Reasons
    ensures { result ≡ why_outcome desk journal.now }
{
    match explained(desk, journal) {
        Ok(reasons) => reasons,
        Err(refusal) => refused(refusal),
    }
}
