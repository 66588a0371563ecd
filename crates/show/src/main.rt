// Prints the exercise on standard input: for each card its number, then for each run, after its last tick,
// the ticks so far, P, T, the causes and the lowest of them. A refused file prints only its refusal.
// That the input can't be read, or the output not be written, is told on standard error and ends the program.
#![tactic(auto)]

use file::Drives;
use rules::ANSWER_WIDTH;
use std::io;
use std::io::Write;

// An answer for each of 7,200 ticks.
const ANSWERS: usize = 7200 * ANSWER_WIDTH;

// Longer than any good file, so that a cut input is never taken for one.
const FILE_MOST: usize = 65536;

// The answer of the last of so many ticks.
fn print_answer<W: Write>(out: &mut W, answers: &[u8], ticks: u32) -> io::Result<()> {
    if ticks < 1 {
        return Ok(());
    }
    let answer = rules::answer_at(answers, ANSWER_WIDTH * (ticks as usize - 1));
    let (permitted, target) = (answer.permitted, answer.target);
    let (causes, lowest) = (answer.causes, answer.lowest);
    writeln!(out, "{ticks} {permitted} {target} {causes} {lowest}")
}

fn show_card<W: Write>(out: &mut W, drives: Drives<'_>, card: u16) -> io::Result<()> {
    let mut answers = [0u8; ANSWERS];
    exercise::run(drives.exercise.file, card as u32, &mut answers);
    writeln!(out, "card {card}")?;
    let mut ticks: u32 = 0;
    for j in 0..drives.exercise.runs() {
        ticks += drives.run(j).ticks as u32;
        print_answer(out, &answers, ticks)?;
    }
    Ok(())
}

fn show<W: Write>(out: &mut W, file: &[u8]) -> io::Result<()> {
    match Drives::open(file) {
        Ok(drives) => {
            for i in 0..drives.exercise.cards() {
                show_card(out, drives, i + 1)?;
            }
            Ok(())
        }
        Err(refusal) => {
            let number = u8::from(refusal);
            writeln!(out, "refused {number}")
        }
    }
}

fn main(rt: HostRuntime) {
    let mut file = [0u8; FILE_MOST];
    let n = match input::fill(&mut rt.stdin(), &mut file) {
        Ok(n) => n,
        Err(error) => {
            input::fail(&mut rt.stderr(), b"show: standard input", error);
            return;
        }
    };
    if let Err(error) = show(&mut rt.stdout(), &file[..n]) {
        input::fail(&mut rt.stderr(), b"show: standard output", error);
    }
}
