// Shows the messages of two tables of texts, which two files hold:
//   messages FIRST SECOND                    each message on a line: its number, the first table's text, the second's
//   messages FIRST SECOND LANGUAGE NUMBER    that message alone, or `refused` and the number of the refusal
// That a file can't be read, or the output not be written, is told on standard error and ends the program.
#![tactic(auto)]

use std::io;
use std::io::Write;
use std::rt::Env;
use texts::{MOST_BYTES, Tables};

// The number that a word says in decimal, where a u32 holds it. It takes no sign: std's `parse` takes `+5` for 5.
fn number_of(word: &[u8]) -> Option<u32> {
    if word.is_empty() {
        return None;
    }
    let mut number: u32 = 0;
    for byte in word {
        let digit = (*byte as char).to_digit(10)?;
        number = number.checked_mul(10)?.checked_add(digit)?;
    }
    Some(number)
}

// The number that an argument says.
fn number_at<R: Env>(rt: &R, argument: usize) -> Option<u32> {
    let mut word = [0u8; 16];
    let n = rt.arg(argument, &mut word).ok()?;
    number_of(&word[..n])
}

fn usage(rt: HostRuntime) {
    let _ = rt
        .stderr()
        .write_all(b"usage: messages FIRST SECOND [LANGUAGE NUMBER]\n");
}

// Tells where not all of the output was written.
fn written(rt: HostRuntime, answer: io::Result<()>) {
    if let Err(error) = answer {
        input::fail(&mut rt.stderr(), b"messages: standard output", error);
    }
}

fn main(rt: HostRuntime) {
    let words = input::words(&rt, 6);
    if (words != 3) & (words != 5) {
        usage(rt);
        return;
    }
    // one byte longer than a table can be
    let mut first = [0u8; MOST_BYTES + 1];
    let mut second = [0u8; MOST_BYTES + 1];
    let mut err = rt.stderr();
    let Some(first) = tables::load(&rt, &mut err, b"messages", 1, &mut first) else {
        return;
    };
    let Some(second) = tables::load(&rt, &mut err, b"messages", 2, &mut second) else {
        return;
    };
    let tables = Tables {
        first: first,
        second: second,
    };
    let mut out = rt.stdout();
    if words == 3 {
        written(rt, listing::show_all(&mut out, tables));
        return;
    }
    let (Some(language), Some(number)) = (number_at(&rt, 3), number_at(&rt, 4)) else {
        usage(rt);
        return;
    };
    written(rt, listing::show_one(&mut out, tables, language, number));
}
