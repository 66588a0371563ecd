// The journal: the records of the ticks, each at its place; how many it takes, whether they are in range, and what they rebuild.
#![tactic(auto)]

ghost use Rattle.std.specs.Prelude.{◌≡◌, true, ◌*◌, ◌≤◌, length};
ghost use Rattle.record.specs.Record.{record_width};
ghost use Rattle.rules.specs.After.{after};
ghost use Rattle.journal.specs.Journal.{capacity, records, all_in_range};

use card::Card;
use ranges::{InRange, Ranged};
use record::RECORD_WIDTH;
use rules::{AfterTick, Answer};

// How many ticks a journal of so many bytes takes.
#[tactic(auto, unfolding(crate::specs::Journal::capacity))]
pub fn capacity(length: usize) -> usize
    ensures { result ≡ capacity length }
{
    (length / RECORD_WIDTH).min(record::MOST_TICKS as usize)
}

// Whether each of the first m records is in range. The bytes and the count stay two arguments: C hands over the bytes, and the count in the desk.
#[tactic(auto, using(numbers::proofs::All::all_none, crate::proofs::Records::one_more, crate::proofs::Records::failed))]
pub fn all_in_range(journal: &[u8], m: usize) -> bool
    requires { record_width * m ≤ length journal.now }
    ensures { result ≡ all_in_range journal.now m }
{
    for i in 0..m {
        if !record::record_at(journal, RECORD_WIDTH * i).in_range() {
            return false;
        }
    }
    true
}

// A fresh state fed the journal's first m records, with the last answer.
#[tactic(auto, unfolding(crate::specs::Journal::records, rules::specs::After::after), using(crate::proofs::Records::tested, rules::proofs::After::after_next))]
pub fn rebuilt(card: InRange<Card>, journal: &[u8], m: usize) -> AfterTick
    requires m_in_bounds { record_width * m ≤ length journal.now }
    requires records_in_range { all_in_range journal.now m ≡ true }
    ensures { result ≡ after card.it (records journal.now) m }
{
    let mut last = AfterTick {
        state: state::fresh_state().it,
        answer: Answer::default(),
    };
    for i in 0..m {
        let state = InRange { it: last.state };
        let reading = InRange {
            it: record::record_at(journal, RECORD_WIDTH * i),
        };
        last = rules::advance(card, state, reading);
    }
    last
}
