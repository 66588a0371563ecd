// The desk: opened with a card, then ticks, steps back and restarts. It goes in and comes back by value; the journal is lent.
#![tactic(auto)]

ghost use Rattle.std.specs.Prelude.{◌≡◌, ◌+◌, ◌-◌, IfOk};
ghost use Rattle.refusal.specs.Number.{number, number_of};
ghost use Rattle.record.specs.Sample.{sample_refusal, sample_record};
ghost use Rattle.desk.specs.Desk.{DeskRanges, desk_in_range};
ghost use Rattle.desk.specs.Laws.{desk_laws};
ghost use Rattle.desk.specs.Calls.{refused, begun, accepted, open_outcome, desk_refusal};
ghost use Rattle.desk.specs.Calls.{tick_refusal_of, tick_outcome, tick_journal, back_refusal, back_outcome, restart_outcome};

use card::Card;
use ranges::{InRange, Ranged};
use record::{RECORD_WIDTH, Record, Sample};
use refusal::Refusal;
use rules::{AfterTick, Answer};
use state::State;

#[repr(C)]
#[derive(Clone, Copy, Default, PartialEq, Eq)]
pub struct Desk {
    pub card: Card,
    // the ticks that the journal holds
    pub n: u16,
    pub state: State,
}

// What a call returns: the new desk, the answer, and the number of the refusal, 0 where the call was accepted.
// Not a `Result`: C reads this struct (`foldharbor_outcome`).
#[repr(C)]
#[derive(Clone, Copy)]
pub struct Outcome {
    pub desk: Desk,
    pub answer: Answer,
    pub refusal: u8,
}

impl Ranged for Desk {
    ghost ranges = { DeskRanges };

    ghost test = { desk_in_range };

    ghost laws = { desk_laws };

    #[tactic(auto, unfolding(crate::specs::Desk::desk_in_range))]
    fn in_range(self) -> bool {
        self.card.in_range() & (self.n <= record::MOST_TICKS) & self.state.in_range()
    }
}

fn refused(desk: Desk, refusal: Refusal) -> Outcome
    ensures { result ≡ refused desk (number refusal) }
{
    Outcome {
        desk,
        answer: Answer::default(),
        refusal: u8::from(refusal),
    }
}

// A desk of n ticks, in the state and with the answer that a tick gave.
fn accepted(card: Card, n: u16, after: AfterTick) -> Outcome
    ensures { result ≡ accepted card n after }
{
    Outcome {
        desk: Desk {
            card,
            n,
            state: after.state,
        },
        answer: after.answer,
        refusal: 0,
    }
}

// A fresh desk of the card, accepted.
fn begun(card: Card) -> Outcome
    ensures { result ≡ begun card }
{
    let state = state::fresh_state().it;
    let answer = Answer::default();
    accepted(card, 0, AfterTick { state, answer })
}

// 5, 6: whether the desk, with a journal of so many bytes, is fit for a tick, a step back or why.
#[tactic(auto, using(crate::proofs::Calls::of_desk), unfolding(refusal::specs::Number::number_of, refusal::specs::Number::number))]
pub fn fit_desk(desk: Desk, length: usize) -> Result<InRange<Desk>, Refusal>
    ensures refusal { number_of result ≡ desk_refusal desk length }
    ensures fit { IfOk result (λ fit. fit.it ≡ desk) }
{
    let fit = InRange::of(desk).ok_or(Refusal::BadDesk)?;
    if length < RECORD_WIDTH * (desk.n as usize) {
        return Err(Refusal::ShortJournal);
    }
    Ok(fit)
}

// The desk and the record that a tick goes by; the last refusals are the sample's.
#[tactic(auto, using(crate::proofs::Calls::of_tick), unfolding(refusal::specs::Number::number_of, refusal::specs::Number::number))]
fn fit_tick(
    desk: Desk,
    sample: Sample,
    length: usize,
) -> Result<(InRange<Desk>, InRange<Record>), Refusal>
    ensures refusal { number_of result ≡ tick_refusal_of desk (sample_refusal sample) length }
    ensures fit { IfOk result (λ fit. (fit.0.it ≡ desk) × (fit.1.it ≡ sample_record sample)) }
{
    let fit = fit_desk(desk, length)?;
    if journal::capacity(length) <= desk.n as usize {
        return Err(Refusal::FullJournal);
    }
    let reading = record::take_sample(sample)?;
    Ok((fit, reading))
}

// The desk that a step back goes by, and how many ticks are left.
#[tactic(auto, using(crate::proofs::Calls::of_back), unfolding(refusal::specs::Number::number_of, refusal::specs::Number::number))]
fn fit_back(desk: Desk, k: u32, journal: &[u8]) -> Result<(InRange<Desk>, u16), Refusal>
    ensures refusal { number_of result ≡ back_refusal desk k journal.now }
    ensures fit { IfOk result (λ fit. (fit.0.it ≡ desk) × (fit.1 ≡ desk.n - k)) }
{
    let fit = fit_desk(desk, journal.len())?;
    let n = desk.n as u32;
    if n < k {
        return Err(Refusal::BackTooFar);
    }
    let left = (n - k) as u16;
    if !journal::all_in_range(journal, left as usize) {
        return Err(Refusal::BadRecord);
    }
    Ok((fit, left))
}

impl Desk {
    #[tactic(auto, unfolding(crate::specs::Calls::open_outcome, refusal::specs::Number::number))]
    pub fn open(card: Card) -> Outcome
        ensures { result ≡ open_outcome card }
    {
        if !card.in_range() {
            return refused(Desk::default(), Refusal::BadCard);
        }
        begun(card)
    }

    pub fn tick(self, sample: Sample, journal: &mut [u8]) -> Outcome
        ensures outcome { result ≡ tick_outcome self sample journal.old }
        ensures journal { journal.new ≡ tick_journal self sample journal.old }
    {
        match fit_tick(self, sample, journal.len()) {
            Err(refusal) => refused(self, refusal),
            Ok((fit, reading)) => {
                record::put_record(journal, RECORD_WIDTH * (self.n as usize), reading.it);
                let card = InRange { it: fit.it.card };
                let state = InRange { it: fit.it.state };
                let after = rules::advance(card, state, reading);
                accepted(self.card, self.n + 1, after)
            }
        }
    }

    pub fn step_back(self, k: u32, journal: &[u8]) -> Outcome
        ensures { result ≡ back_outcome self k journal.now }
    {
        match fit_back(self, k, journal) {
            Err(refusal) => refused(self, refusal),
            Ok((fit, left)) => {
                let card = InRange { it: fit.it.card };
                let after = journal::rebuilt(card, journal, left as usize);
                accepted(self.card, left, after)
            }
        }
    }

    #[tactic(auto, unfolding(crate::specs::Calls::restart_outcome, refusal::specs::Number::number))]
    pub fn restart(self) -> Outcome
        ensures { result ≡ restart_outcome self }
    {
        if !self.in_range() {
            return refused(self, Refusal::BadDesk);
        }
        begun(self.card)
    }
}
