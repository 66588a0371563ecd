// What the archive exports of crate `foldharbor`: each call hands on to the function of its name and states its clauses again.
// host/foldharbor.h declares all exports, and their structs, for C and C++.
#![tactic(auto)]

ghost use Rattle.std.specs.Prelude.{◌≡◌, length};
ghost use Rattle.card.specs.Card.{card_width, put_card};
ghost use Rattle.rules.specs.Answer.{answer_width, put_answer};
ghost use Rattle.desk.specs.Calls.{open_outcome, tick_outcome, tick_journal, restart_outcome};
ghost use Rattle.texts.specs.Text.{chosen, text_place};
ghost use Rattle.foldharbor.specs.Version.{version};
ghost use Rattle.foldharbor.specs.Bytes.{card_from, answer_from, bytes_put};

use card::Card;
use desk::{Desk, Outcome};
use record::Sample;
use rules::Answer;
use texts::Place;

#[unsafe(no_mangle)]
pub extern "C" fn foldharbor_version() -> u32
    ensures { result ≡ version }
{
    foldharbor::foldharbor_version()
}

#[unsafe(no_mangle)]
pub extern "C" fn foldharbor_open(card: Card) -> Outcome
    ensures { result ≡ open_outcome card }
{
    foldharbor::foldharbor_open(card)
}

#[unsafe(no_mangle)]
pub extern "C" fn foldharbor_tick(desk: Desk, sample: Sample, journal: &mut [u8]) -> Outcome
    ensures outcome { result ≡ tick_outcome desk sample journal.old }
    ensures journal { journal.new ≡ tick_journal desk sample journal.old }
{
    foldharbor::foldharbor_tick(desk, sample, journal)
}

#[unsafe(no_mangle)]
pub extern "C" fn foldharbor_restart(desk: Desk) -> Outcome
    ensures { result ≡ restart_outcome desk }
{
    foldharbor::foldharbor_restart(desk)
}

#[unsafe(no_mangle)]
pub extern "C" fn foldharbor_card_at(bytes: &[u8]) -> Card
    ensures { result ≡ card_from bytes.now }
{
    foldharbor::foldharbor_card_at(bytes)
}

#[unsafe(no_mangle)]
pub extern "C" fn foldharbor_put_card(card: Card, bytes: &mut [u8]) -> usize
    ensures count { result ≡ bytes_put card_width (length bytes.old) }
    ensures bytes { bytes.new ≡ put_card bytes.old 0 card }
{
    foldharbor::foldharbor_put_card(card, bytes)
}

#[unsafe(no_mangle)]
pub extern "C" fn foldharbor_answer_at(bytes: &[u8]) -> Answer
    ensures { result ≡ answer_from bytes.now }
{
    foldharbor::foldharbor_answer_at(bytes)
}

#[unsafe(no_mangle)]
pub extern "C" fn foldharbor_put_answer(answer: Answer, bytes: &mut [u8]) -> usize
    ensures count { result ≡ bytes_put answer_width (length bytes.old) }
    ensures bytes { bytes.new ≡ put_answer bytes.old 0 answer }
{
    foldharbor::foldharbor_put_answer(answer, bytes)
}

// A text's place and not the text: an exported function can't return a reference.
#[unsafe(no_mangle)]
pub extern "C" fn foldharbor_text<'a>(
    first: &'a [u8],
    second: &'a [u8],
    language: u32,
    number: u32,
) -> Place
    ensures { result ≡ text_place (chosen language first.entry second.entry).now language number }
{
    foldharbor::foldharbor_text(first, second, language, number)
}
