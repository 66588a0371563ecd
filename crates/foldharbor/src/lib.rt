// The calls that a host program links, but for the step back, why and exercises: crate `foldharbor_c` exports them.
#![tactic(auto)]

ghost use Rattle.std.specs.Prelude.{◌≡◌, length};
ghost use Rattle.card.specs.Card.{card_width, put_card};
ghost use Rattle.rules.specs.Answer.{answer_width, put_answer};
ghost use Rattle.desk.specs.Calls.{open_outcome, tick_outcome, tick_journal, restart_outcome};
ghost use Rattle.texts.specs.Text.{chosen, text_place};
ghost use Rattle.foldharbor.specs.Version.{version};
ghost use Rattle.foldharbor.specs.Bytes.{card_from, answer_from, bytes_put};

use card::{CARD_WIDTH, Card};
use desk::{Desk, Outcome};
use record::Sample;
use rules::{ANSWER_WIDTH, Answer};
use texts::Place;

// Of this archive and of the header that goes with it.
const VERSION: u32 = 20000;

// How many of `width` bytes are put where there are `room`: all or none.
#[tactic(auto, unfolding(crate::specs::Bytes::bytes_put))]
fn bytes_put(width: usize, room: usize) -> usize
    ensures { result ≡ bytes_put width room }
{
    if room < width { 0 } else { width }
}

pub fn foldharbor_version() -> u32
    ensures { result ≡ version }
{
    VERSION
}

pub fn foldharbor_open(card: Card) -> Outcome
    ensures { result ≡ open_outcome card }
{
    Desk::open(card)
}

pub fn foldharbor_tick(desk: Desk, sample: Sample, journal: &mut [u8]) -> Outcome
    ensures outcome { result ≡ tick_outcome desk sample journal.old }
    ensures journal { journal.new ≡ tick_journal desk sample journal.old }
{
    desk.tick(sample, journal)
}

pub fn foldharbor_restart(desk: Desk) -> Outcome
    ensures { result ≡ restart_outcome desk }
{
    desk.restart()
}

#[tactic(auto, unfolding(crate::specs::Bytes::card_from))]
pub fn foldharbor_card_at(bytes: &[u8]) -> Card
    ensures { result ≡ card_from bytes.now }
{
    if bytes.len() < CARD_WIDTH {
        return Card::default();
    }
    card::card_at(bytes, 0)
}

pub fn foldharbor_put_card(card: Card, bytes: &mut [u8]) -> usize
    ensures count { result ≡ bytes_put card_width (length bytes.old) }
    ensures bytes { bytes.new ≡ put_card bytes.old 0 card }
{
    let count = bytes_put(CARD_WIDTH, bytes.len());
    card::put_card(bytes, 0, card);
    count
}

#[tactic(auto, unfolding(crate::specs::Bytes::answer_from))]
pub fn foldharbor_answer_at(bytes: &[u8]) -> Answer
    ensures { result ≡ answer_from bytes.now }
{
    if bytes.len() < ANSWER_WIDTH {
        return Answer::default();
    }
    rules::answer_at(bytes, 0)
}

pub fn foldharbor_put_answer(answer: Answer, bytes: &mut [u8]) -> usize
    ensures count { result ≡ bytes_put answer_width (length bytes.old) }
    ensures bytes { bytes.new ≡ put_answer bytes.old 0 answer }
{
    let count = bytes_put(ANSWER_WIDTH, bytes.len());
    rules::put_answer(bytes, 0, answer);
    count
}

// A text's place and not the text: an exported function can't return a reference.
pub fn foldharbor_text<'a>(first: &'a [u8], second: &'a [u8], language: u32, number: u32) -> Place
    ensures { result ≡ text_place (chosen language first.entry second.entry).now language number }
{
    texts::text_place(first, second, language, number)
}
