// A table of texts made of lines, one message a line.
#![tactic(auto)]

ghost use Rattle.std.specs.Prelude.{◌≡◌, ◌+◌, ◌≤◌, Some, eqb, length, drop, position};
ghost use mathlib.Core.List.{flatten};
ghost use Rattle.layout.specs.Layout.{written};
ghost use Rattle.texts.specs.Table.{most_bytes};
ghost use Rattle.lines.specs.Lines.{line_end, lines, first_line};
ghost use Rattle.lines.specs.Table.{offsets, table_of, Room};
ghost use Rattle.lines.specs.Made.{made, bytes_of};
ghost use Rattle.lines.specs.Told.{words_of, told};

use std::fmt;
use std::fmt::Display;
use texts::{MOST_BYTES, MOST_MESSAGES};

const LINE_END: u8 = b'\n';

// What can be wrong with a text.
#[derive(Clone, Copy, PartialEq, Eq)]
pub enum FaultKind {
    // there is no line
    NoLine,
    // there are more than 64 lines
    TooMany,
    // the table would be longer than an offset can say
    TooLong,
    NotUtf8,
}

// What is wrong, and in which line, from 1.
#[derive(Clone, Copy, PartialEq, Eq)]
pub struct Fault {
    pub kind: FaultKind,
    pub line: usize,
}

// A table that was made: of so many messages, so many bytes long.
#[derive(Clone, Copy, PartialEq, Eq)]
pub struct Table {
    pub count: usize,
    pub length: usize,
}

impl FaultKind {
    fn in_line(self, line: usize) -> Fault
        ensures { result ≡ record { kind = self; line = line } }
    {
        Fault {
            kind: self,
            line: line,
        }
    }
}

impl Display for FaultKind {
    ghost output = { λ kind. Some (words_of kind) };

    fn fmt<W: fmt::Write>(&self, f: &mut fmt::Formatter<W>) -> fmt::Result {
        f.write_str(match self {
            FaultKind::NoLine => "there is none, and a table has at least one message",
            FaultKind::TooMany => "one too many, a table has at most 64 messages",
            FaultKind::TooLong => "the table would be longer than 65535 bytes",
            FaultKind::NotUtf8 => "it is not UTF-8",
        })
    }
}

impl Display for Fault {
    ghost output = { λ fault. Some (told fault) };

    fn fmt<W: fmt::Write>(&self, f: &mut fmt::Formatter<W>) -> fmt::Result {
        let line = self.line;
        let kind = self.kind;
        write!(f, "line {line}: {kind}")
    }
}

// How long the first line is that has an end.
fn first_end(text: &[u8]) -> Option<usize>
    ensures { result ≡ position (λ byte. eqb byte line_end) text.now }
{
    text.iter().position(|byte| *byte == LINE_END)
}

// Where the line ends that begins at a place.
fn line_end(text: &[u8], at: usize) -> usize
    requires { at ≤ length text.now }
    ensures { (result ≡ at + length (first_line (drop at text.now))) × (result ≤ length text.now) }
{
    match first_end(&text[at..]) {
        Some(length) => at + length,
        None => text.len(),
    }
}

// What a table made of the text would be, or its first fault.
#[tactic(auto, using(crate::proofs::Judged::turn_many, crate::proofs::Judged::turn_long))]
fn judge(text: &[u8]) -> Result<Table, Fault>
    ensures { result ≡ made text.now }
{
    if text.is_empty() {
        return Err(FaultKind::NoLine.in_line(1));
    }
    let mut count = 0;
    let mut bytes = 0;
    let mut at = 0;
    // a `while`: a turn goes on by a line, whatever its length
    while at < text.len() {
        let end = line_end(text, at);
        let line = count + 1;
        if MOST_MESSAGES < line {
            return Err(FaultKind::TooMany.in_line(line));
        }
        if MOST_BYTES < texts::header_width(line) + bytes + (end - at) {
            return Err(FaultKind::TooLong.in_line(line));
        }
        if !utf8::is_utf8(text, at, end) {
            return Err(FaultKind::NotUtf8.in_line(line));
        }
        count = line;
        bytes += end - at;
        at = end + 1;
    }
    Ok(Table {
        count: count,
        length: texts::header_width(count) + bytes,
    })
}

// Writes the offset of each message behind the count, the first as given, and the end of the last.
fn put_offsets(text: &[u8], first: usize, table: &mut [u8])
    requires { (first + length (flatten (lines text.now)) ≤ most_bytes) × (2 + length (offsets first (lines text.now)) ≤ length table.old) }
    ensures { table.new ≡ written table.old 2 (offsets first (lines text.now)) }
{
    let mut offset = first;
    let mut place = 2;
    let mut at = 0;
    // a `while`: a turn goes on by a line, whatever its length
    while at < text.len() {
        layout::put_u16(table, place, offset as u16);
        let end = line_end(text, at);
        offset += end - at;
        place += 2;
        at = end + 1;
    }
    layout::put_u16(table, place, offset as u16);
}

// Writes the messages end to end: every byte but the line ends.
#[tactic(auto, using(crate::proofs::Split::length_end, crate::proofs::Split::length_more, crate::proofs::Split::put_end, crate::proofs::Split::put_more))]
fn put_messages(text: &[u8], from: usize, table: &mut [u8])
    requires { from + length (flatten (lines text.now)) ≤ length table.old }
    ensures { table.new ≡ written table.old from (flatten (lines text.now)) }
{
    let mut to = from;
    for byte in text {
        if *byte != LINE_END {
            table[to] = *byte;
            to += 1;
        }
    }
}

// Writes the table of so many lines.
fn put_table(text: &[u8], count: usize, table: &mut [u8])
    requires { Room (lines text.now) count (length table.old) }
    ensures { table.new ≡ written table.old 0 (table_of (lines text.now)) }
{
    let header = texts::header_width(count);
    layout::put_u16(table, 0, count as u16);
    put_offsets(text, header, table);
    put_messages(text, header, table);
}

// Makes the table of the text's lines at the start of `table`, or finds the first fault and writes nothing.
pub fn make(text: &[u8], table: &mut [u8; MOST_BYTES]) -> Result<Table, Fault>
    ensures made { result ≡ made text.now }
    ensures table { table.new ≡ written table.old 0 (bytes_of (made text.now) (lines text.now)) }
{
    let made = judge(text)?;
    put_table(text, made.count, table);
    Ok(made)
}
