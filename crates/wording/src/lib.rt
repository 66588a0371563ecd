// What people are told of a drive, line by line on a writer: texts are those of two lent tables, the words between them stand here.
// What prints stops at the first write that fails and answers its error. A cause goes by its bit, NZ1 is 0.
#![tactic(auto)]

ghost use Rattle.std.specs.Prelude.{◌≡◌, ◌+◌, ◌*◌, ◌≤◌, ◌<◌};

use record::Record;
use std::io::Write;
use std::{fmt, io};
use texts::Tables;

// Where each kind of message begins in a table of texts.
const CAUSES: u32 = 0;

const CODES: u32 = 14;

const MODES: u32 = 18;

const REFUSALS: u32 = 22;

const TICKS_A_SECOND: u16 = 10;

const SECONDS_A_MINUTE: u16 = 60;

// What is told of a tick in which a cause begins to be held or is let go.
#[derive(Clone, Copy)]
pub struct Moment {
    pub tick: u16,
    pub v: u16,
    pub permitted: u16,
    pub code: u8,
    // the mode that the desk is in
    pub mode: u8,
}

#[derive(Clone, Copy)]
struct Time {
    minutes: u16,
    seconds: u16,
    tenths: u16,
}

// The time from the drive's start to a tick's end.
fn time_of(tick: u16) -> Time
    ensures { (600 * result.minutes + 10 * result.seconds + result.tenths ≡ tick) × (result.seconds < 60) × (result.tenths < 10) }
{
    let seconds = tick / TICKS_A_SECOND;
    Time {
        minutes: seconds / SECONDS_A_MINUTE,
        seconds: seconds % SECONDS_A_MINUTE,
        tenths: tick % TICKS_A_SECOND,
    }
}

impl fmt::Display for Time {
    fn fmt<W: fmt::Write>(&self, f: &mut fmt::Formatter<W>) -> fmt::Result {
        let minutes = self.minutes;
        let seconds = self.seconds;
        let tenths = self.tenths;
        write!(f, "{minutes}:{seconds:02}.{tenths}")
    }
}

// In tenths of km/h.
#[derive(Clone, Copy)]
struct Speed(u16);

impl fmt::Display for Speed {
    fn fmt<W: fmt::Write>(&self, f: &mut fmt::Formatter<W>) -> fmt::Result {
        write!(f, "{}.{} km/h", self.0 / 10, self.0 % 10)
    }
}

// The name of a cause.
#[derive(Clone, Copy)]
struct Name(u8);

impl fmt::Display for Name {
    fn fmt<W: fmt::Write>(&self, f: &mut fmt::Formatter<W>) -> fmt::Result {
        write!(f, "NZ{}", self.0 as u16 + 1)
    }
}

// Of the lever and of motion.
#[derive(Clone, Copy)]
struct Direction(u8);

impl fmt::Display for Direction {
    fn fmt<W: fmt::Write>(&self, f: &mut fmt::Formatter<W>) -> fmt::Result {
        f.write_str(match self.0 {
            1 => "forward",
            2 => "reverse",
            _ => "none",
        })
    }
}

// Of the main line's pressure.
#[derive(Clone, Copy)]
struct Band(u8);

impl fmt::Display for Band {
    fn fmt<W: fmt::Write>(&self, f: &mut fmt::Formatter<W>) -> fmt::Result {
        f.write_str(match self.0 {
            0 => "below 3.5 bar",
            1 => "3.5 to below 4.5 bar",
            _ => "from 4.5 bar",
        })
    }
}

const FLAGS: [(u8, &str); 7] = [
    (record::VIGILANCE, "vigilance"),
    (record::PLUS, "PLUS"),
    (record::MAN, "MAN"),
    (record::BRAKE, "direct brake"),
    (record::REMOTE, "remote stop"),
    (record::LOSS, "adhesion loss"),
    (record::CAB, "cab"),
];

// The flags that are on, a comma between them.
#[derive(Clone, Copy)]
struct Flags(u8);

impl fmt::Display for Flags {
    fn fmt<W: fmt::Write>(&self, f: &mut fmt::Formatter<W>) -> fmt::Result {
        if self.0 == 0 {
            return f.write_str("nothing");
        }
        let mut one_before = false;
        for (weight, name) in FLAGS {
            if self.0 & weight != 0 {
                if one_before {
                    f.write_str(", ")?;
                }
                f.write_str(name)?;
                one_before = true;
            }
        }
        Ok(())
    }
}

// What stands beside a cause: the signal code and the mode.
#[derive(Clone, Copy)]
struct InForce {
    code: u8,
    mode: u8,
}

// A cause's text in a language, with the names of a signal code and of a mode.
fn print_text<'a, W: Write>(
    out: &mut W,
    tables: Tables<'a>,
    language: u32,
    cause: u8,
    beside: InForce,
) -> io::Result<()> {
    out.write_all(b"  ")?;
    listing::print_one(out, tables, language, CAUSES + (cause as u32))?;
    out.write_all(b" (")?;
    listing::print_one(out, tables, language, CODES + (beside.code as u32))?;
    out.write_all(b", ")?;
    listing::print_one(out, tables, language, MODES + (beside.mode as u32))?;
    out.write_all(b")\n")
}

fn print_texts<'a, W: Write>(
    out: &mut W,
    tables: Tables<'a>,
    cause: u8,
    beside: InForce,
) -> io::Result<()> {
    for language in [1, 2] {
        print_text(out, tables, language, cause, beside)?;
    }
    Ok(())
}

// What a record has beside its code and its mode.
fn print_record<W: Write>(out: &mut W, reading: Record) -> io::Result<()> {
    let v = Speed(reading.v);
    let lever = Direction(reading.lever);
    let motion = Direction(reading.sense);
    let band = Band(reading.band);
    let flags = Flags(reading.flags);
    writeln!(
        out,
        "  {v}, mode asked for as above, lever {lever}, motion {motion}, main line {band}, on: {flags}"
    )
}

pub fn print_card<W: Write>(out: &mut W, number: u16) -> io::Result<()> {
    writeln!(out, "card {number}")
}

// A cause begins to be held, or is let go.
pub fn print_change<'a, W: Write>(
    out: &mut W,
    tables: Tables<'a>,
    moment: Moment,
    cause: u8,
    held: bool,
) -> io::Result<()> {
    let tick = moment.tick;
    let time = time_of(tick);
    let v = Speed(moment.v);
    let permitted = Speed(moment.permitted);
    let name = Name(cause);
    let end = if held { " held\n" } else { " let go\n" };
    write!(
        out,
        "tick {tick}  {time}  {v}, permitted {permitted}: {name}{end}"
    )?;
    if !held {
        return Ok(());
    }
    let beside = InForce {
        code: moment.code,
        mode: moment.mode,
    };
    print_texts(out, tables, cause, beside)
}

// No cause has begun to be held.
pub fn print_quiet<W: Write>(out: &mut W) -> io::Result<()> {
    out.write_all(b"no intervention\n")
}

pub fn print_open<W: Write>(out: &mut W, tick: u16) -> io::Result<()> {
    let time = time_of(tick);
    writeln!(out, "after tick {tick}, {time}, the valve is open")
}

// A cause is held since a tick, which had this record.
pub fn print_reason<'a, W: Write>(
    out: &mut W,
    tables: Tables<'a>,
    cause: u8,
    tick: u16,
    reading: Record,
) -> io::Result<()> {
    let name = Name(cause);
    let time = time_of(tick);
    writeln!(out, "{name} held since tick {tick}, {time}")?;
    let beside = InForce {
        code: reading.code,
        mode: reading.mode,
    };
    print_texts(out, tables, cause, beside)?;
    print_record(out, reading)
}

// A refusal and its texts. Of any u8, as ever: a `Refusal` would ask more.
pub fn print_refusal<'a, W: Write>(out: &mut W, tables: Tables<'a>, refusal: u8) -> io::Result<()> {
    let number = REFUSALS + (refusal as u32);
    write!(out, "refused {refusal}")?;
    for language in [1, 2] {
        out.write_all(b"\n  ")?;
        listing::print_one(out, tables, language, number)?;
    }
    out.write_all(b"\n")
}
