// Plays the drive script on standard input. It answers the header and each call with a line as soon as it has read it.
//   drive            the lines alone
//   drive journal    behind them, where the script ends, each record that the journal holds: a line of its 8 bytes in hex
// That the input can't be read, or the output not be written, is told on standard error and ends the program.
#![tactic(auto)]

ghost use Rattle.std.specs.Prelude.{◌≡◌, ◌<◌, ◌≤◌, length, take, max, slice_index, IfOk};
ghost use Rattle.std.specs.Io.KnownBytes.{Consumes};
ghost use Rattle.script.specs.Call.{call_most, call_width};

use desk::{Desk, Outcome};
use layout::byte_at;
use line::{LINE_MOST, REASONS_LINE_MOST};
use record::RECORD_WIDTH;
use script::{BadScript, CALL_MOST, Call, HEADER_WIDTH, Reply};
use std::io;
use std::io::{Read, Write};
use std::rt::Env;
use why::Reasons;

const JOURNAL_MOST: usize = 65535;

// The bytes of a record's line: two digits of each byte, and what stands behind them.
const RECORD_LINE: usize = 3 * RECORD_WIDTH;

// Why the program ends before the script does. No `From`: both hold an `io::Error`.
#[derive(Clone, Copy)]
enum Failure {
    Reading(io::Error),
    Writing(io::Error),
}

fn print_outcome<W: Write>(out: &mut W, outcome: Outcome) -> io::Result<()> {
    let mut line = [0u8; LINE_MOST];
    let n = line::line_of(outcome, &mut line);
    out.write_all(&line[..n])
}

fn print_reasons<W: Write>(out: &mut W, reasons: Reasons) -> io::Result<()> {
    let mut line = [0u8; REASONS_LINE_MOST];
    let n = line::line_of_reasons(reasons, &mut line);
    out.write_all(&line[..n])
}

// The script ends there.
fn print_bad_script<W: Write>(out: &mut W) -> io::Result<()> {
    out.write_all(b"bad script\n")
}

// Prints what a call on the desk came to, in one write; answers the desk of the next call, or nothing where the script ends.
fn print<W: Write>(
    out: &mut W,
    desk: Desk,
    played: Result<Reply, BadScript>,
) -> io::Result<Option<Desk>> {
    match played {
        Ok(Reply::Line(outcome)) => {
            print_outcome(out, outcome)?;
            Ok(Some(outcome.desk))
        }
        Ok(Reply::Why(reasons)) => {
            print_reasons(out, reasons)?;
            Ok(Some(desk))
        }
        Err(_) => {
            print_bad_script(out)?;
            Ok(None)
        }
    }
}

// Reads a call and no byte more; answers how many bytes there were, 0 at the end of the input. They are the next ones of an input whose bytes are known.
#[tactic(auto, unfolding(script::specs::Call::call_width))]
fn read_call<R: Read>(input: &mut R, call: &mut [u8]) -> io::Result<usize>
    requires { call_most ≤ length call.old }
    ensures within { IfOk result (λ n. n ≤ length call.new) }
    ensures bytes { IfOk result (λ n. Consumes (R.remaining input.old) (R.remaining input.new) (take n call.new)) }
    ensures no_more { IfOk result (λ n. n ≤ max 1 (call_width (slice_index call.new 0))) }
{
    let first = input::fill(input, &mut call[..1])?;
    if first == 0 {
        return Ok(0);
    }
    let Ok(kind) = Call::try_from(call[0]) else {
        return Ok(1);
    };
    let width = kind.width();
    if width == 1 {
        return Ok(1);
    }
    let rest = input::fill(input, &mut call[1..width])?;
    Ok(1 + rest)
}

// Reads a call, plays it and prints the reply; answers the desk of the next call, or nothing where the script ends.
fn play_next<R: Read, W: Write>(
    input: &mut R,
    out: &mut W,
    desk: Desk,
    journal: &mut [u8],
) -> Result<Option<Desk>, Failure> {
    let mut call = [0u8; CALL_MOST];
    let n = read_call(input, &mut call).map_err(Failure::Reading)?;
    if n == 0 {
        return Ok(None);
    }
    print(out, desk, script::play(desk, &call[..n], journal)).map_err(Failure::Writing)
}

// Answers how many ticks the journal has when the script has ended. A proved loop has to end, and nothing says that the input does: the turns are
// counted, up to a number that no drive uses up.
fn play_all<R: Read, W: Write>(
    input: &mut R,
    out: &mut W,
    first: Desk,
    journal: &mut [u8],
) -> Result<u16, Failure> {
    let mut desk = first;
    for _ in 0..u64::MAX {
        let Some(next) = play_next(input, out, desk, journal)? else {
            return Ok(desk.n);
        };
        desk = next;
    }
    Ok(desk.n)
}

// Prints a record's bytes, in one write. No `write!` into the line: it could fail, and a line of a known length holds every digit.
fn print_record<W: Write>(out: &mut W, journal: &[u8], at: usize) -> io::Result<()> {
    let digits = b"0123456789abcdef";
    let mut line = [b' '; RECORD_LINE];
    for k in 0..RECORD_WIDTH {
        let byte = byte_at(journal, at, k);
        line[3 * k] = digits[(byte / 16) as usize];
        line[3 * k + 1] = digits[(byte % 16) as usize];
    }
    line[RECORD_LINE - 1] = b'\n';
    out.write_all(&line)
}

// Prints the first so many records. No `chunks_exact`: it would end with the journal, and so many lines are asked for.
fn print_journal<W: Write>(out: &mut W, journal: &[u8], ticks: u16) -> io::Result<()> {
    for i in 0..ticks {
        print_record(out, journal, RECORD_WIDTH * (i as usize))?;
    }
    Ok(())
}

// Plays the calls behind the header; prints the journal behind them where that is asked for.
fn finish<R: Read, W: Write>(
    input: &mut R,
    out: &mut W,
    desk: Desk,
    journal: &mut [u8],
    journal_too: bool,
) -> Result<(), Failure> {
    let ticks = play_all(input, out, desk, journal)?;
    if journal_too {
        print_journal(out, journal, ticks).map_err(Failure::Writing)?;
    }
    Ok(())
}

// A journal as long as a u16 can ask for.
fn zeros() -> [u8; JOURNAL_MOST]
    ensures { 65535 ≡ length result }
{
    [0; JOURNAL_MOST]
}

// Plays the script, with the journal behind it or without.
fn drive<R: Read, W: Write>(input: &mut R, out: &mut W, journal_too: bool) -> Result<(), Failure> {
    let mut header = [0u8; HEADER_WIDTH];
    let n = input::fill(input, &mut header).map_err(Failure::Reading)?;
    let Ok(opened) = script::open(&header[..n]) else {
        return print_bad_script(out).map_err(Failure::Writing);
    };
    print_outcome(out, opened).map_err(Failure::Writing)?;
    let length = script::journal_length(&header) as usize;
    let mut journal = zeros();
    finish(input, out, opened.desk, &mut journal[..length], journal_too)
}

// Whether the journal is asked for too, or nothing where the words make no sense.
fn what_is_asked(env: &impl Env) -> Option<bool> {
    let words = input::words(env, 3);
    if words <= 1 {
        return Some(false);
    }
    let mut word = [0u8; 7];
    // a longer word is an error
    let n = env.arg(1, &mut word).ok()?;
    if (words == 2) & (&word[..n] == b"journal".as_slice()) {
        return Some(true);
    }
    None
}

fn main(rt: HostRuntime) {
    let Some(journal_too) = what_is_asked(&rt) else {
        let _ = rt.stderr().write_all(b"usage: drive [journal] <SCRIPT\n");
        return;
    };
    match drive(&mut rt.stdin(), &mut rt.stdout(), journal_too) {
        Ok(()) => {}
        Err(Failure::Reading(error)) => {
            input::fail(&mut rt.stderr(), b"drive: standard input", error)
        }
        Err(Failure::Writing(error)) => {
            input::fail(&mut rt.stderr(), b"drive: standard output", error)
        }
    }
}
