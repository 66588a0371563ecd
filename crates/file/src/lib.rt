// The exercise file of a school: its header, its cards, its runs, and the reader.
#![tactic(auto)]

ghost use Rattle.std.specs.Prelude.{◌≡◌, true, ◌+◌, ◌*◌, ◌≤◌, ◌<◌, length, IfOk};
ghost use Rattle.refusal.specs.Number.{number_of};
ghost use Rattle.card.specs.Card.{card_width};
ghost use Rattle.record.specs.Times.{most_ticks};
ghost use Rattle.file.specs.File.{header_width, run_width, card_count, run_count, runs_from, header_good, card_in, cards_in_range, run_ticks, run_record};
ghost use Rattle.file.specs.Runs.{run_fault, runs_refusal};
ghost use Rattle.file.specs.Read.{tick_count, total_of, runs_read, head_refusal, read_refusal, read_outcome};

use card::{CARD_WIDTH, Card};
use layout::u16_at;
use ranges::{InRange, Ranged};
use record::{RECORD_WIDTH, Record};
use refusal::Refusal;

// What the reader found: the number of its refusal, 0 where there is none, and the counts.
// The numbers are of the C interface, `FoldharborCounts`.
#[repr(C)]
#[derive(Clone, Copy, Default)]
pub struct Counts {
    pub refusal: u8,
    pub cards: u16,
    pub runs: u16,
    pub ticks: u16,
}

// What a whole exercise came to: the number of the refusal, 0 where there is none, and the ticks.
// The demands speak of these two numbers (`Demand1.exercise`).
#[derive(Clone, Copy)]
pub struct Total {
    pub refusal: u8,
    pub ticks: u16,
}

impl From<Result<u16, Refusal>> for Total {
    ghost from_gives = { λ ran total. total ≡ total_of ran };

    #[tactic(auto, unfolding(crate::specs::Read::total_of, refusal::specs::Number::number_of, refusal::specs::Number::value_of))]
    fn from(ran: Result<u16, Refusal>) -> Total {
        match ran {
            Ok(ticks) => Total {
                refusal: 0,
                ticks: ticks,
            },
            Err(refusal) => Total {
                refusal: u8::from(refusal),
                ticks: 0,
            },
        }
    }
}

// So many ticks of one record.
#[derive(Clone, Copy)]
pub struct Run<R> {
    pub ticks: u16,
    pub record: R,
}

const HEADER_WIDTH: usize = 10;

const TICKS_WIDTH: usize = 2;

const RUN_WIDTH: usize = TICKS_WIDTH + RECORD_WIDTH;

const MOST_CARDS: u16 = 8;

const MOST_RUNS: u16 = 6000;

// ---- of any file

pub fn card_count(file: &[u8]) -> u16
    ensures { result ≡ card_count file.now }
{
    u16_at(file, 0, 0)
}

pub fn run_count(file: &[u8]) -> u16
    ensures { result ≡ run_count file.now }
{
    u16_at(file, 2, 0)
}

// Where so many cards put the runs.
pub fn runs_from(cards: u16) -> usize
    ensures { result ≡ header_width + card_width * cards }
{
    HEADER_WIDTH + CARD_WIDTH * (cards as usize)
}

#[tactic(auto, unfolding(crate::specs::File::header_good))]
fn header_good(file: &[u8]) -> bool
    ensures { result ≡ header_good file.now }
{
    let cards = card_count(file);
    let runs = run_count(file);
    let from = runs_from(cards);
    let end = from + RUN_WIDTH * (runs as usize);
    let cards_at = u16_at(file, 4, 0) as usize;
    let runs_at = u16_at(file, 6, 0) as usize;
    let total = u16_at(file, 8, 0) as usize;
    (HEADER_WIDTH <= file.len())
        & (1 <= cards)
        & (cards <= MOST_CARDS)
        & (runs <= MOST_RUNS)
        & (cards_at == HEADER_WIDTH)
        & (runs_at == from)
        & (total == end)
        & (file.len() == end)
}

// The card at a place, from 0.
#[tactic(auto, unfolding(crate::specs::File::card_in))]
pub fn card_in(file: &[u8], i: usize) -> Card
    requires { header_width + card_width * (i + 1) ≤ length file.now }
    ensures { result ≡ card_in file.now i }
{
    card::card_at(file, HEADER_WIDTH + CARD_WIDTH * i)
}

#[tactic(auto, using(numbers::proofs::All::all_none, numbers::proofs::All::all_more, crate::proofs::Good::card_bad))]
fn cards_in_range(file: &[u8], cards: usize) -> bool
    requires { header_width + card_width * cards ≤ length file.now }
    ensures { result ≡ cards_in_range file.now cards }
{
    for i in 0..cards {
        if !card_in(file, i).in_range() {
            return false;
        }
    }
    true
}

// The run at a place, from 0, of those that begin at `from`.
#[tactic(auto, unfolding(crate::specs::File::run_ticks, crate::specs::File::run_record))]
pub fn run_in(file: &[u8], from: usize, j: usize) -> Run<Record>
    requires { (from ≡ runs_from file.now) × (from + run_width * (j + 1) ≤ length file.now) }
    ensures { (result.ticks ≡ run_ticks file.now j) × (result.record ≡ run_record file.now j) }
{
    let at = from + RUN_WIDTH * j;
    Run {
        ticks: layout::u16_within(file, at),
        record: record::record_at(file, at + TICKS_WIDTH),
    }
}

// The ticks of the run at a place, from 0, of any file.
#[tactic(auto, unfolding(crate::specs::File::run_ticks))]
pub fn run_length(file: &[u8], j: u16) -> u16
    ensures { result ≡ run_ticks file.now j }
{
    u16_at(file, runs_from(card_count(file)), RUN_WIDTH * (j as usize))
}

#[tactic(auto, unfolding(crate::specs::Runs::run_fault, refusal::specs::Number::number, refusal::specs::Number::number_of))]
fn run_fault(before: usize, ticks: usize, reading: Record) -> Result<(), Refusal>
    requires { (before ≤ most_ticks) × (ticks ≤ 65535) }
    ensures { number_of result ≡ run_fault before ticks reading }
{
    let most = record::MOST_TICKS as usize;
    if (ticks == 0) | (most < before + ticks) {
        return Err(Refusal::BadTicks);
    }
    if !reading.in_range() {
        return Err(Refusal::BadRecord);
    }
    Ok(())
}

// The ticks of the runs, each in turn, of a file with a good header, or the first refusal.
#[tactic(auto, using(crate::proofs::Header::header_length, crate::proofs::Runs::runs_stop,
// ticks or refusal, as a total
crate::proofs::Reader::runs_are), unfolding(refusal::specs::Number::number_of))]
pub fn runs_read(file: &[u8]) -> Result<u16, Refusal>
    requires { header_good file.now ≡ true }
    ensures refusal { number_of result ≡ runs_refusal file.now (run_count file.now) }
    ensures ticks { IfOk result (λ ticks. ticks ≡ tick_count file.now) }
    ensures total { total_of result ≡ runs_read file.now }
{
    let from = runs_from(card_count(file));
    let mut sum = 0;
    for j in 0..run_count(file) as usize {
        let run = run_in(file, from, j);
        let ticks = run.ticks as usize;
        run_fault(sum, ticks, run.record)?;
        sum += ticks;
    }
    Ok(sum as u16)
}

// ---- of a file that was read

// An exercise: a file with a good header, whose cards are in range.
#[derive(Clone, Copy)]
pub struct Exercise<'a> {
    pub file: &'a [u8],
    pub ghost good_header: { header_good file.now ≡ true },
    pub ghost good_cards: { cards_in_range file.now (card_count file.now) ≡ true },
}

impl<'a> Exercise<'a> {
    // The exercise of a file, or the first refusal of its header and its cards.
    #[tactic(auto, using(crate::proofs::Reader::of_head), unfolding(crate::specs::Read::head_refusal, refusal::specs::Number::number_of))]
    pub fn open(file: &'a [u8]) -> Result<Exercise<'a>, Refusal>
        ensures refusal { number_of result ≡ head_refusal file.now }
        ensures value { IfOk result (λ exercise. exercise.file.now ≡ file.now) }
    {
        if !header_good(file) {
            return Err(Refusal::BadFile);
        }
        if !cards_in_range(file, card_count(file) as usize) {
            return Err(Refusal::BadCard);
        }
        Ok(Exercise { file: file })
    }

    // How many cards it has.
    pub fn cards(self) -> u16
        ensures { result ≡ card_count self.entry.file.now }
    {
        card_count(self.file)
    }

    // How many runs it has.
    pub fn runs(self) -> u16
        ensures { result ≡ run_count self.entry.file.now }
    {
        run_count(self.file)
    }

    // The card at a place, from 0.
    #[tactic(auto, using(crate::proofs::Header::header_length, crate::proofs::Good::card_good))]
    pub fn card(self, i: u16) -> InRange<Card>
        requires { i < card_count self.file.now }
        ensures { result.it ≡ card_in self.entry.file.now i }
    {
        InRange {
            it: card_in(self.file, i as usize),
        }
    }
}

// The drives of an exercise whose runs were read too, so that nothing in it is refused: so many ticks under each card.
#[derive(Clone, Copy)]
pub struct Drives<'a> {
    pub exercise: Exercise<'a>,
    pub ticks: u16,
    pub ghost no_run_refused: { runs_refusal exercise.file.now (run_count exercise.file.now) ≡ 0 },
    pub ghost all_ticks: { ticks ≡ tick_count exercise.file.now },
}

impl<'a> Drives<'a> {
    // The drives of an exercise, or the first refusal of its runs.
    #[tactic(auto, unfolding(refusal::specs::Number::number, refusal::specs::Number::number_of))]
    pub fn of(exercise: Exercise<'a>) -> Result<Drives<'a>, Refusal>
        ensures refusal { number_of result ≡ runs_refusal exercise.entry.file.now (run_count exercise.entry.file.now) }
        ensures value { IfOk result (λ drives. drives.exercise.file.now ≡ exercise.entry.file.now) }
    {
        let ticks = runs_read(exercise.file)?;
        Ok(Drives {
            exercise: exercise,
            ticks: ticks,
        })
    }

    // The drives of a file, or its first refusal.
    #[tactic(auto, using(crate::proofs::Reader::in_turn), unfolding(crate::specs::Read::read_refusal, refusal::specs::Number::number_of))]
    pub fn open(file: &'a [u8]) -> Result<Drives<'a>, Refusal>
        ensures refusal { number_of result ≡ read_refusal file.now }
        ensures value { IfOk result (λ drives. drives.exercise.file.now ≡ file.now) }
    {
        Drives::of(Exercise::open(file)?)
    }

    // The run at a place, from 0.
    #[tactic(auto, using(crate::proofs::Header::header_length, crate::proofs::Good::record_good))]
    pub fn run(self, j: u16) -> Run<InRange<Record>>
        requires { j < run_count self.exercise.file.now }
        ensures ticks { result.ticks ≡ run_ticks self.entry.exercise.file.now j }
        ensures record { result.record.it ≡ run_record self.entry.exercise.file.now j }
    {
        let file = self.exercise.file;
        let run = run_in(file, runs_from(card_count(file)), j as usize);
        Run {
            ticks: run.ticks,
            record: InRange { it: run.record },
        }
    }
}

// The reader: the counts, or zeros and the refusal.
#[tactic(auto, using(crate::proofs::Reader::of_read), unfolding(refusal::specs::Number::number_of))]
pub fn read(file: &[u8]) -> Counts
    ensures { result ≡ read_outcome file.now }
{
    match Drives::open(file) {
        Ok(drives) => Counts {
            refusal: 0,
            cards: drives.exercise.cards(),
            runs: drives.exercise.runs(),
            ticks: drives.ticks,
        },
        Err(refusal) => Counts {
            refusal: u8::from(refusal),
            cards: 0,
            runs: 0,
            ticks: 0,
        },
    }
}
