// A whole exercise, run under one of its cards into a lent buffer.
#![tactic(auto)]

ghost use Rattle.std.specs.Prelude.{◌≡◌, ◌*◌, ◌-◌, ◌≤◌, length, IfOk};
ghost use Rattle.refusal.specs.Number.{number_of};
ghost use Rattle.layout.specs.Layout.{written};
ghost use Rattle.file.specs.File.{card_in};
ghost use Rattle.file.specs.Read.{tick_count, drive};
ghost use Rattle.rules.specs.Answer.{answer_width};
ghost use Rattle.exercise.specs.Answers.{answers};
ghost use Rattle.exercise.specs.Run.{number_refusal, exercise_refusal, exercise_outcome, exercise_buffer};

use card::Card;
use file::{Drives, Exercise, Total};
use ranges::InRange;
use refusal::Refusal;
use rules::ANSWER_WIDTH;

// The card of a number, counted from 1.
#[tactic(auto, unfolding(refusal::specs::Number::number, refusal::specs::Number::number_of))]
fn chosen(exercise: Exercise<'_>, card: u32) -> Result<InRange<Card>, Refusal>
    ensures refusal { number_of result ≡ number_refusal exercise.entry.file.now card }
    ensures value { IfOk result (λ chosen. chosen.it ≡ card_in exercise.entry.file.now (card - 1)) }
{
    if (1 <= card) & (card <= exercise.cards() as u32) {
        return Ok(exercise.card((card - 1) as u16));
    }
    Err(Refusal::NoSuchCard)
}

// The drives and the card of a run into a buffer of so many bytes, or the first refusal.
#[tactic(auto, using(crate::proofs::Outcome::in_turn), unfolding(crate::specs::Run::exercise_refusal, refusal::specs::Number::number_of))]
fn accepted<'a>(
    file: &'a [u8],
    card: u32,
    room: usize,
) -> Result<(Drives<'a>, InRange<Card>), Refusal>
    ensures refusal { number_of result ≡ exercise_refusal file.now card room }
    ensures drives { IfOk result (λ run. run.0.exercise.file.now ≡ file.now) }
    ensures card { IfOk result (λ run. run.1.it ≡ card_in file.now (card - 1)) }
    ensures room { IfOk result (λ run. answer_width * run.0.ticks ≤ room) }
{
    let exercise = Exercise::open(file)?;
    let chosen = chosen(exercise, card)?;
    let drives = Drives::of(exercise)?;
    if room < ANSWER_WIDTH * (drives.ticks as usize) {
        return Err(Refusal::ShortBuffer);
    }
    Ok((drives, chosen))
}

// Drives the runs under a card, from a fresh state, and writes the answers of their ticks.
fn answer_all(drives: Drives<'_>, card: InRange<Card>, buffer: &mut [u8])
    requires room { answer_width * drives.ticks ≤ length buffer.old }
    ensures { let file = drives.entry.exercise.file.now in
        buffer.new ≡ written buffer.old 0 (answers card.it (drive file) (tick_count file)) }
{
    let mut state = state::fresh_state().it;
    let mut from = 0;
    for j in 0..drives.exercise.runs() {
        let run = drives.run(j);
        let end = from + (run.ticks as usize);
        for i in from..end {
            let tick = rules::advance(card, InRange { it: state }, run.record);
            rules::write_answer(buffer, ANSWER_WIDTH * i, tick.answer);
            state = tick.state;
        }
        from = end;
    }
}

// The ticks that were run, or the first refusal.
#[tactic(auto, unfolding(refusal::specs::Number::number_of))]
fn run_file(file: &[u8], card: u32, buffer: &mut [u8]) -> Result<u16, Refusal>
    ensures refusal { number_of result ≡ exercise_refusal file.now card (length buffer.old) }
    ensures ticks { IfOk result (λ ticks. ticks ≡ tick_count file.now) }
    ensures buffer { buffer.new ≡ exercise_buffer file.now card buffer.old }
{
    let (drives, chosen) = accepted(file, card, buffer.len())?;
    answer_all(drives, chosen, buffer);
    Ok(drives.ticks)
}

// Runs the exercise under a card, counted from 1, into the buffer: eight bytes a tick.
#[tactic(auto, using(crate::proofs::Outcome::outcome_is))]
pub fn run(file: &[u8], card: u32, buffer: &mut [u8]) -> Total
    ensures outcome { result ≡ exercise_outcome file.now card (length buffer.old) }
    ensures buffer { buffer.new ≡ exercise_buffer file.now card buffer.old }
{
    Total::from(run_file(file, card, buffer))
}
