// The messages of two tables of texts on a writer, one of them or all side by side.
// What prints stops where not all of it was written.
#![tactic(auto)]

ghost use Rattle.std.specs.Prelude.{◌≡◌, ◌++◌, OnOk};
ghost use Rattle.std.specs.Io.KnownBytes.{Appends};
ghost use Rattle.refusal.specs.Number.{number, number_of};
ghost use Rattle.listing.specs.Printed.{line_end, spaces, refused, number_column, beside, side_by_side, one, widest, row, all_refusal, all};

use refusal::Refusal;
use std::io;
use std::io::Write;
use texts::{MOST_MESSAGES, Tables};

const MOST_SPACES: usize = 16;

const SPACES: [u8; MOST_SPACES] = [b' '; MOST_SPACES];

const MOST_ROWS: u32 = MOST_MESSAGES as u32;

#[tactic(auto, unfolding(crate::specs::Printed::refused))]
fn print_refused<W: Write>(out: &mut W, refusal: Refusal, end: &[u8]) -> io::Result<()>
    ensures bytes { OnOk result (Appends (W.contents out.old) (W.contents out.new) (refused (number refusal) end.now)) }
{
    let told = u8::from(refusal);
    out.write_all(b"refused ")?;
    write!(out, "{told}")?;
    out.write_all(end)
}

fn print_spaces<W: Write>(out: &mut W, count: usize) -> io::Result<()>
    ensures bytes { OnOk result (Appends (W.contents out.old) (W.contents out.new) (spaces count)) }
{
    for _ in 0..count / MOST_SPACES {
        out.write_all(&SPACES)?;
    }
    out.write_all(&SPACES[..count % MOST_SPACES])
}

// Prints one message, or its refusal, and no line end. The language is any number: 17 is an answer too.
pub fn print_one<'a, W: Write>(
    out: &mut W,
    tables: Tables<'a>,
    language: u32,
    number: u32,
) -> io::Result<()>
    ensures bytes { OnOk result (Appends (W.contents out.old) (W.contents out.new) (one tables.entry.first.now tables.entry.second.now language number)) }
{
    match tables.text(language, number) {
        Ok(text) => out.write_all(text),
        Err(refusal) => print_refused(out, refusal, b""),
    }
}

// Prints one message, or its refusal, as a line.
pub fn show_one<'a, W: Write>(
    out: &mut W,
    tables: Tables<'a>,
    language: u32,
    number: u32,
) -> io::Result<()>
    ensures bytes { OnOk result (Appends (W.contents out.old) (W.contents out.new) (one tables.entry.first.now tables.entry.second.now language number ++ line_end)) }
{
    print_one(out, tables, language, number)?;
    out.write_all(b"\n")
}

// How many characters the longest text of the first table has.
#[tactic(auto, unfolding(crate::specs::Printed::widest))]
fn widest<'a>(tables: Tables<'a>) -> usize
    ensures { result ≡ widest tables.entry.first.now tables.entry.second.now 64 }
{
    let mut most = 0;
    for number in 0..MOST_ROWS {
        let text = tables.text(1, number).unwrap_or(b"");
        most = most.max(utf8::characters(text));
    }
    most
}

// Prints a message's number in two columns, and two spaces.
#[tactic(auto, unfolding(crate::specs::Printed::number_column))]
fn print_number<W: Write>(out: &mut W, number: u32) -> io::Result<()>
    ensures bytes { OnOk result (Appends (W.contents out.old) (W.contents out.new) (number_column number)) }
{
    if number < 10 {
        print_spaces(out, 1)?;
    }
    write!(out, "{number}")?;
    print_spaces(out, 2)
}

// Prints a text behind the one on its left, which stands in so wide a column.
#[tactic(auto, unfolding(crate::specs::Printed::beside))]
fn print_beside<W: Write>(out: &mut W, left: &[u8], width: usize, right: &[u8]) -> io::Result<()>
    ensures bytes { OnOk result (Appends (W.contents out.old) (W.contents out.new) (beside left.now width right.now)) }
{
    let used = utf8::characters(left);
    if used < width {
        print_spaces(out, width - used)?;
    }
    print_spaces(out, 2)?;
    out.write_all(right)
}

// Prints a message's number and a text of each table, the first's in so wide a column.
#[tactic(auto, unfolding(crate::specs::Printed::side_by_side))]
fn print_row<W: Write>(
    out: &mut W,
    number: u32,
    left: &[u8],
    width: usize,
    right: &[u8],
) -> io::Result<()>
    ensures bytes { OnOk result (Appends (W.contents out.old) (W.contents out.new) (side_by_side number left.now width right.now)) }
{
    print_number(out, number)?;
    out.write_all(left)?;
    if right.len() != 0 {
        print_beside(out, left, width, right)?;
    }
    out.write_all(b"\n")
}

// Prints a message of both tables; nothing where neither table has it.
fn show_row<'a, W: Write>(
    out: &mut W,
    tables: Tables<'a>,
    number: u32,
    width: usize,
) -> io::Result<()>
    ensures bytes { OnOk result (Appends (W.contents out.old) (W.contents out.new) (row tables.entry.first.now tables.entry.second.now width number)) }
{
    let left = tables.text(1, number);
    let right = tables.text(2, number);
    if left.is_err() & right.is_err() {
        return Ok(());
    }
    print_row(
        out,
        number,
        left.unwrap_or(b""),
        width,
        right.unwrap_or(b""),
    )
}

// Whether both tables are good, and so have a message 0.
fn both_good<'a>(tables: Tables<'a>) -> Result<(), Refusal>
    ensures { number_of result ≡ all_refusal tables.entry.first.now tables.entry.second.now }
{
    tables.text(1, 0)?;
    tables.text(2, 0)?;
    Ok(())
}

// Prints every message of both tables, or the refusal of one that is bad.
#[tactic(auto, unfolding(crate::specs::Printed::rows))]
pub fn show_all<'a, W: Write>(out: &mut W, tables: Tables<'a>) -> io::Result<()>
    ensures bytes { OnOk result (Appends (W.contents out.old) (W.contents out.new) (all tables.entry.first.now tables.entry.second.now)) }
{
    if let Err(refusal) = both_good(tables) {
        return print_refused(out, refusal, b"\n");
    }
    let width = widest(tables);
    for number in 0..MOST_ROWS {
        show_row(out, tables, number, width)?;
    }
    Ok(())
}
