// Makes a table of texts of the lines on standard input, one message a line, and writes it to standard output.
// A fault of the lines is told on standard error, in a line with its number, and nothing is written.
// That the input can't be read, or the table not be written, is told there too.
#![tactic(auto)]

use std::io::Write;
use texts::MOST_BYTES;

fn main(rt: HostRuntime) {
    // longer than the lines of any table, so that a cut input is never taken for a whole one
    let mut text = [0u8; MOST_BYTES + 1];
    let n = match input::fill(&mut rt.stdin(), &mut text) {
        Ok(n) => n,
        Err(error) => {
            input::fail(&mut rt.stderr(), b"table: standard input", error);
            return;
        }
    };
    let mut table = [0u8; MOST_BYTES];
    match lines::make(&text[..n], &mut table) {
        Ok(made) => {
            if let Err(error) = rt.stdout().write_all(&table[..made.length]) {
                input::fail(&mut rt.stderr(), b"table: standard output", error);
            }
        }
        Err(fault) => {
            let _ = writeln!(&mut rt.stderr(), "table: {fault}");
        }
    }
}
