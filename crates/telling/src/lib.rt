// The drives of an exercise told on a writer, as an instructor would paste them under a trainee's drive.
// What tells stops at the first write that fails and answers its error.
#![tactic(auto)]

ghost use Rattle.std.specs.Prelude.{◌≡◌, ◌+◌, ◌-◌, ◌≤◌, ◌<◌, IfOk};
ghost use Rattle.record.specs.Times.{most_ticks};
ghost use Rattle.file.specs.File.{card_in};

use card::Card;
use desk::Desk;
use file::{Drives, Run};
use ranges::InRange;
use record::{RECORD_WIDTH, Record};
use state::State;
use std::io;
use std::io::Write;
use texts::Tables;
use why::Reason;
use wording::Moment;

// Longer than any drive needs.
const JOURNAL_MOST: usize = 65536;

// A drive so far.
#[derive(Clone, Copy)]
struct Drive {
    ticks: u16,
    state: InRange<State>,
    // no cause has begun to be held
    quiet: bool,
}

// What a tick does to the causes, by those before it and after it.
fn tell_causes<'a, W: Write>(
    out: &mut W,
    tables: Tables<'a>,
    moment: Moment,
    before: u8,
    after: u8,
) -> io::Result<()> {
    let was = causes::held_in(before);
    let is = causes::held_in(after);
    let all = [
        (0, was.nz1, is.nz1),
        (1, was.nz2, is.nz2),
        (2, was.nz3, is.nz3),
        (3, was.nz4, is.nz4),
        (4, was.nz5, is.nz5),
    ];
    for (cause, was, is) in all {
        if was != is {
            wording::print_change(out, tables, moment, cause, is)?;
        }
    }
    Ok(())
}

// Drives a tick, writes its record and tells what it does.
fn tell_tick<'a, W: Write>(
    drive: Drive,
    out: &mut W,
    tables: Tables<'a>,
    card: InRange<Card>,
    reading: InRange<Record>,
    journal: &mut [u8],
) -> io::Result<Drive>
    requires { drive.ticks < most_ticks }
    ensures { IfOk result (λ after. after.ticks ≡ drive.ticks + 1) }
{
    let before = drive.state;
    let tick = rules::advance(card, before, reading);
    record::put_record(journal, RECORD_WIDTH * (drive.ticks as usize), reading.it);
    let ticks = drive.ticks + 1;
    let moment = Moment {
        tick: ticks,
        v: reading.it.v,
        permitted: tick.answer.permitted,
        code: reading.it.code,
        mode: tick.state.mode,
    };
    tell_causes(out, tables, moment, before.it.causes, tick.state.causes)?;
    Ok(Drive {
        ticks: ticks,
        state: InRange { it: tick.state },
        quiet: drive.quiet & (tick.state.causes == before.it.causes),
    })
}

// Drives a run of a record.
fn tell_run<'a, W: Write>(
    begun: Drive,
    out: &mut W,
    tables: Tables<'a>,
    card: InRange<Card>,
    run: Run<InRange<Record>>,
    journal: &mut [u8],
) -> io::Result<Drive>
    requires { begun.ticks + run.ticks ≤ most_ticks }
    ensures { IfOk result (λ drive. drive.ticks ≡ begun.ticks + run.ticks) }
{
    let mut drive = begun;
    for _ in 0..run.ticks {
        drive = tell_tick(drive, out, tables, card, run.record, journal)?;
    }
    Ok(drive)
}

// Drives the runs, from a fresh state.
fn tell_runs<'a, 'b, W: Write>(
    out: &mut W,
    tables: Tables<'a>,
    drives: Drives<'b>,
    card: InRange<Card>,
    journal: &mut [u8],
) -> io::Result<Drive> {
    let mut drive = Drive {
        ticks: 0,
        state: state::fresh_state(),
        quiet: true,
    };
    for j in 0..drives.exercise.runs() {
        drive = tell_run(drive, out, tables, card, drives.run(j), journal)?;
    }
    Ok(drive)
}

// Why a cause is held; nothing where it is not.
fn tell_reason<'a, W: Write>(
    out: &mut W,
    tables: Tables<'a>,
    cause: u8,
    reason: Reason,
) -> io::Result<()> {
    // tick 0 of a `Reason`, which C reads, is no tick
    if reason.tick == 0 {
        return Ok(());
    }
    wording::print_reason(out, tables, cause, reason.tick, reason.reading)
}

// Why the valve is open after a drive; nothing where it is closed, which is the one refusal of a desk that was just driven.
fn tell_why<'a, W: Write>(
    out: &mut W,
    tables: Tables<'a>,
    desk: Desk,
    journal: &[u8],
) -> io::Result<()> {
    let reasons = why::why(desk, journal);
    // the number, since C reads `Reasons`
    if reasons.refusal != 0 {
        return Ok(());
    }
    wording::print_open(out, desk.n)?;
    let all = [
        (0, reasons.nz1),
        (1, reasons.nz2),
        (2, reasons.nz3),
        (3, reasons.nz4),
        (4, reasons.nz5),
    ];
    for (cause, reason) in all {
        tell_reason(out, tables, cause, reason)?;
    }
    Ok(())
}

// The drive of a card, under its number in the file, and why the valve is open at its end.
fn tell_card<'a, 'b, W: Write>(
    out: &mut W,
    tables: Tables<'a>,
    drives: Drives<'b>,
    number: u16,
    card: InRange<Card>,
) -> io::Result<()>
    requires { card.it ≡ card_in drives.exercise.file.now (number - 1) }
{
    wording::print_card(out, number)?;
    let mut journal = [0u8; JOURNAL_MOST];
    let drive = tell_runs(out, tables, drives, card, &mut journal)?;
    if drive.quiet {
        return wording::print_quiet(out);
    }
    let desk = Desk {
        card: card.it,
        n: drive.ticks,
        state: drive.state.it,
    };
    tell_why(out, tables, desk, &journal)
}

// The cards, each in turn.
fn tell_cards<'a, 'b, W: Write>(
    out: &mut W,
    tables: Tables<'a>,
    drives: Drives<'b>,
) -> io::Result<()> {
    for i in 0..drives.exercise.cards() {
        tell_card(out, tables, drives, i + 1, drives.exercise.card(i))?;
    }
    Ok(())
}

// Tells the drive of each card of an exercise file, or its refusal.
pub fn tell<'a, 'b, W: Write>(out: &mut W, tables: Tables<'a>, file: &'b [u8]) -> io::Result<()> {
    match Drives::open(file) {
        Ok(drives) => tell_cards(out, tables, drives),
        Err(refusal) => wording::print_refusal(out, tables, u8::from(refusal)),
    }
}
