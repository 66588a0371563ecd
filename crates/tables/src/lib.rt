// A table of texts from the file that an argument names.
#![tactic(auto)]

ghost use Rattle.std.specs.Prelude.{◌≡◌, ◌<◌, length, IfOk, IfSome};
ghost use Rattle.std.specs.Io.{WritesAtMost};

use std::env::FillError;
use std::io::Write;
use std::rt::{Env, Files};
use std::{fs, io, str};

// The longest name that the system takes.
const NAME_MOST: usize = 4096;

// What the system says of an argument that is missing, of a name that is too long, and of one that is no text, which std opens no file by: the system's own
// numbers, which `from_raw_os_error` takes.
const MISSING: i32 = 22;

const TOO_LONG: i32 = 36;

const NO_TEXT: i32 = 84;

// Begins what is told on standard error.
fn name_program<W: Write>(told: &mut W, program: &[u8]) -> io::Result<()> {
    told.write_all(program)?;
    told.write_all(b": ")
}

// Tells why a file could not be opened or read. That this fails itself can't be told.
fn tell<W: Write>(told: &mut W, program: &[u8], file: &[u8], error: io::Error) {
    if name_program(told, program).is_ok() {
        input::fail(told, file, error);
    }
}

fn tell_long<W: Write>(told: &mut W, program: &[u8], file: &[u8]) -> io::Result<()> {
    name_program(told, program)?;
    told.write_all(file)?;
    told.write_all(b": longer than a table can be\n")
}

// The argument's bytes at the start of the buffer; answers how many they are, as std's `arg` does.
fn name_at<R: Env>(rt: &R, argument: usize, name: &mut [u8]) -> io::Result<usize>
    ensures bound { WritesAtMost result name.new }
{
    match rt.arg(argument, name) {
        Ok(n) => Ok(n),
        Err(FillError::NotPresent) => Err(io::Error::from_raw_os_error(MISSING)),
        Err(FillError::TooLong) => Err(io::Error::from_raw_os_error(TOO_LONG)),
    }
}

// Fills the buffer from the file of this name.
fn read<R: Files>(rt: &R, name: &[u8], table: &mut [u8]) -> io::Result<usize>
    ensures within { WritesAtMost result table.old }
{
    let Ok(path) = str::from_utf8(name) else {
        return Err(io::Error::from_raw_os_error(NO_TEXT));
    };
    let mut file = fs::open(rt, path)?;
    input::fill(&mut file, table)
}

// Reads the file into a buffer that is one byte longer than a table can be; answers the table, or nothing where it can't, which is told, to standard error,
// as what the program of this name says.
pub fn load<'a, R: Env + Files, W: Write>(
    rt: &R,
    told: &mut W,
    program: &[u8],
    argument: usize,
    table: &'a mut [u8],
) -> Option<&'a [u8]>
    ensures within { IfSome result (λ bytes. length bytes.now < length table.old) }
    ensures at { IfSome result (λ bytes. bytes.ref_ptr ≡ table.entry.ref_ptr) }
{
    let mut buffer = [0u8; NAME_MOST];
    let n = match name_at(rt, argument, &mut buffer) {
        Ok(n) => n,
        Err(error) => {
            tell(told, program, b"a file's name", error);
            return None;
        }
    };
    let name = &buffer[..n];
    match read(rt, name, table) {
        Ok(got) => {
            if got < table.len() {
                return Some(&table[..got]);
            }
            let _ = tell_long(told, program, name);
        }
        Err(error) => tell(told, program, name, error),
    }
    None
}
