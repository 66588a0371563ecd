// Texts in two languages: the part of a lent table that a message number and a language choose.
#![tactic(auto)]

ghost use Rattle.std.specs.Prelude.{◌≡◌, ◌^◌, ◌≤◌, ◌<◌, IfOk};
ghost use Rattle.numbers.specs.All.{all_below};
ghost use Rattle.refusal.specs.Number.{number_of};
ghost use Rattle.texts.specs.Table.{header_width, count, offset, header_good, message_good, table_good};
ghost use Rattle.texts.specs.Text.{chosen, text_place, text_part, text_address};
ghost use Rattle.texts.specs.Told.{language_number, Speaks, place_of, bytes_of};

use layout::u16_at;
use refusal::Refusal;

// Two tables that are lent, one for each language.
#[derive(Clone, Copy)]
pub struct Tables<'a> {
    pub first: &'a [u8],
    pub second: &'a [u8],
}

#[derive(Clone, Copy)]
enum Language {
    First = 1,
    Second = 2,
}

// The language of a number.
impl TryFrom<u32> for Language {
    type Error = Refusal;

    ghost try_from_gives = { Speaks };

    fn try_from(number: u32) -> Result<Language, Refusal> {
        match number {
            1 => Ok(Language::First),
            2 => Ok(Language::Second),
            _ => Err(Refusal::NoSuchLanguage),
        }
    }
}

// The number of the refusal, 0 where there is none, and where the text begins and ends in its table, zeros if refused.
#[repr(C)]
#[derive(Clone, Copy)]
pub struct Place {
    pub refusal: u8,
    pub start: u16,
    pub end: u16,
}

// The longest table: a u16 offset says where it ends.
pub const MOST_BYTES: usize = 65535;

pub const MOST_MESSAGES: usize = 64;

// The count, then one offset more than messages.
pub fn header_width(messages: usize) -> usize
    requires { messages ≤ 65535 }
    ensures { result ≡ header_width messages }
{
    2 + 2 * (messages + 1)
}

fn count(table: &[u8]) -> u16
    ensures { result ≡ count table.now }
{
    u16_at(table, 0, 0)
}

// Where a message begins, and the one before it ends.
fn offset(table: &[u8], i: usize) -> u16
    requires { i ≤ 2 ^ 32 }
    ensures { result ≡ offset table.now i }
{
    u16_at(table, 2, 2 * i)
}

#[tactic(auto, unfolding(crate::specs::Table::header_good))]
fn header_good(table: &[u8]) -> bool
    ensures { result ≡ header_good table.now }
{
    let count = count(table) as usize;
    let first = offset(table, 0) as usize;
    let last = offset(table, count) as usize;
    (1 <= count) & (count <= MOST_MESSAGES) & (first == header_width(count)) & (last == table.len())
}

fn message_good(table: &[u8], i: usize) -> bool
    requires { i < 65536 }
    ensures { result ≡ message_good table.now i }
{
    let start = offset(table, i) as usize;
    let end = offset(table, i + 1) as usize;
    (start <= end) & utf8::is_utf8(table, start, end)
}

fn messages_good(table: &[u8], count: usize) -> bool
    requires { count ≤ 65536 }
    ensures { result ≡ all_below (message_good table.now) count }
{
    for i in 0..count {
        if !message_good(table, i) {
            return false;
        }
    }
    true
}

#[tactic(auto, unfolding(crate::specs::Table::table_good))]
fn table_good(table: &[u8]) -> bool
    ensures { result ≡ table_good table.now }
{
    if !header_good(table) {
        return false;
    }
    messages_good(table, count(table) as usize)
}

// Where a message begins and ends in the table of a language that is spoken, as the first is.
fn place_in(table: &[u8], number: u32) -> Result<(u16, u16), Refusal>
    ensures { place_of result ≡ text_place table.now 1 number }
{
    if !table_good(table) {
        return Err(Refusal::BadTable);
    }
    if count(table) as u32 <= number {
        return Err(Refusal::NoSuchMessage);
    }
    let i = number as usize;
    Ok((offset(table, i), offset(table, i + 1)))
}

// What C is told of a place.
impl From<Result<(u16, u16), Refusal>> for Place {
    ghost from_gives = { λ found place. place ≡ place_of found };

    fn from(found: Result<(u16, u16), Refusal>) -> Place {
        match found {
            Ok((start, end)) => Place {
                refusal: 0,
                start: start,
                end: end,
            },
            Err(refusal) => Place {
                refusal: u8::from(refusal),
                start: 0,
                end: 0,
            },
        }
    }
}

impl<'a> Tables<'a> {
    fn of(self, language: Language) -> &'a [u8]
        ensures { result ≡ chosen (language_number language) self.entry.first self.entry.second }
    {
        match language {
            Language::First => self.first,
            Language::Second => self.second,
        }
    }

    // Where a message begins and ends in the table of its language.
    #[tactic(auto, unfolding(crate::specs::Text::text_place, crate::specs::Text::text_refusal,
    // a refusal, by its number
    refusal::specs::Number::number, refusal::specs::Number::number_of))]
    fn place(self, language: u32, number: u32) -> Result<(u16, u16), Refusal>
        ensures { place_of result ≡ text_place (chosen language self.entry.first self.entry.second).now language number }
    {
        place_in(self.of(Language::try_from(language)?), number)
    }

    // The text itself, a part of the table of its language and no copy.
    #[tactic(auto, unfolding(crate::specs::Text::text_place, crate::specs::Text::text_refusal,
    // a refusal, by its number
    refusal::specs::Number::number, refusal::specs::Number::number_of))]
    pub fn text(self, language: u32, number: u32) -> Result<&'a [u8], Refusal>
        ensures refusal { number_of result ≡ (text_place (chosen language self.entry.first self.entry.second).now language number).refusal }
        ensures bytes { bytes_of result ≡ text_part (chosen language self.entry.first self.entry.second).now language number }
        ensures address { IfOk result (λ text. text.ref_ptr ≡ text_address (chosen language self.entry.first self.entry.second) language number) }
    {
        let table = self.of(Language::try_from(language)?);
        let (start, end) = place_in(table, number)?;
        Ok(&table[start as usize..end as usize])
    }
}

// The place of a message in the first table (language 1) or in the second (2).
pub fn text_place<'a>(first: &'a [u8], second: &'a [u8], language: u32, number: u32) -> Place
    ensures { result ≡ text_place (chosen language first.entry second.entry).now language number }
{
    let tables = Tables {
        first: first,
        second: second,
    };
    Place::from(tables.place(language, number))
}

// The text itself, a part of the first table or of the second and no copy, empty if refused; the refusal goes to `refusal`.
// It keeps its out-parameter: "a refusal returns an empty part" (docs/RULES.md) and `refused_empty` speak of the part that it answers, refused or not.
pub fn text<'a, 'b>(
    first: &'a [u8],
    second: &'a [u8],
    language: u32,
    number: u32,
    refusal: &'b mut u8,
) -> &'a [u8]
    ensures bytes { result.now ≡ text_part (chosen language first.entry second.entry).now language number }
    ensures address { result.ref_ptr ≡ text_address (chosen language first.entry second.entry) language number }
    ensures refusal { refusal.new ≡ (text_place (chosen language first.entry second.entry).now language number).refusal }
{
    let tables = Tables {
        first: first,
        second: second,
    };
    match tables.text(language, number) {
        Ok(part) => {
            *refusal = 0;
            part
        }
        Err(refused) => {
            *refusal = u8::from(refused);
            let table = if language == 2 { second } else { first };
            &table[..0]
        }
    }
}
