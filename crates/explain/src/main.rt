// Tells the interventions of the exercise on standard input under each of its cards, and why the valve is open at the end:
//   explain FIRST SECOND <EXERCISE    FIRST and SECOND are files that hold tables of texts
// A refused file prints its refusal. That a file or the input can't be read, or the output not be written, is told on standard error and ends the program.
#![tactic(auto)]

use std::io::Write;
use texts::{MOST_BYTES, Tables};

// Longer than any good file, so that a cut input is never taken for one.
const FILE_MOST: usize = 65536;

fn main(rt: HostRuntime) {
    let mut told = rt.stderr();
    if input::words(&rt, 4) != 3 {
        let _ = told.write_all(b"usage: explain FIRST SECOND <EXERCISE\n");
        return;
    }
    // one byte longer than a table can be
    let mut first = [0u8; MOST_BYTES + 1];
    let mut second = [0u8; MOST_BYTES + 1];
    let Some(first) = tables::load(&rt, &mut told, b"explain", 1, &mut first) else {
        return;
    };
    let Some(second) = tables::load(&rt, &mut told, b"explain", 2, &mut second) else {
        return;
    };
    let mut file = [0u8; FILE_MOST];
    let length = match input::fill(&mut rt.stdin(), &mut file) {
        Ok(length) => length,
        Err(error) => {
            input::fail(&mut told, b"explain: standard input", error);
            return;
        }
    };
    let tables = Tables {
        first: first,
        second: second,
    };
    let mut out = rt.stdout();
    if let Err(error) = telling::tell(&mut out, tables, &file[..length]) {
        input::fail(&mut told, b"explain: standard output", error);
    }
}
