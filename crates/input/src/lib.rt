// What the programs share: reading an input to its end, with a failed read told apart from the end, telling why a read or a write failed, and counting the
// words of the command.
#![tactic(auto)]

ghost use Rattle.std.specs.Prelude.{◌≤◌, ◌<◌, length, take, IfOk};
ghost use Rattle.std.specs.Io.KnownBytes.{Consumes, IsAtEnd};

use std::env::FillError;
use std::io::{Cursor, Read, Write};
use std::rt::Env;
use std::{io, str};

// Longer than the text of any error.
const TEXT_MOST: usize = 512;

// Fills the buffer, or as much of it as the input has; answers how many bytes that is. They are the next ones of an input whose bytes are known, and all of
// them where the buffer has room left.
pub fn fill<R: Read>(input: &mut R, buffer: &mut [u8]) -> io::Result<usize>
    ensures within { IfOk result (λ n. n ≤ length buffer.old) }
    ensures bytes { IfOk result (λ n. Consumes (R.remaining input.old) (R.remaining input.new) (take n buffer.new)) }
    ensures end { IfOk result (λ n. n < length buffer.old → IsAtEnd (R.remaining input.new)) }
{
    let mut n = 0;
    // a `while`: a turn goes on by as much as the read gives
    while n < buffer.len() {
        let more = input.read(&mut buffer[n..])?;
        if more == 0 {
            return Ok(n);
        }
        n += more;
    }
    Ok(n)
}

// The text without the number of the system's error that std puts behind it.
fn bare(text: &str) -> &str {
    match text.rsplit_once(" (os error ") {
        Some((bare, _)) => bare,
        None => text,
    }
}

// The error's text, put together in the buffer; as much of it as that holds.
fn text_of(error: io::Error, buffer: &mut [u8]) -> &[u8] {
    let mut writer = Cursor::new(&mut *buffer);
    let _ = write!(writer, "{error}");
    let n = writer.position() as usize;
    let bytes = &buffer[..n.min(buffer.len())];
    if error.raw_os_error().is_none() {
        return bytes;
    }
    match str::from_utf8(bytes) {
        Ok(text) => bare(text).as_bytes(),
        Err(_) => bytes,
    }
}

fn tell<W: Write>(to: &mut W, what: &[u8], error: io::Error) -> io::Result<()> {
    let mut buffer = [0u8; TEXT_MOST];
    let text = text_of(error, &mut buffer);
    to.write_all(what)?;
    to.write_all(b": ")?;
    to.write_all(text)?;
    to.write_all(b"\n")
}

// Writes a line, to standard error: what failed, as the caller names it, a colon and the error's text. That this fails itself can't be told.
pub fn fail<W: Write>(to: &mut W, what: &[u8], error: io::Error) {
    let _ = tell(to, what, error);
}

// How many words the command has, the program's name among them; no more than so many are counted.
pub fn words<R: Env>(rt: &R, most: usize) -> usize
    ensures at_most { result ≤ most }
{
    let mut buffer = [0u8; 1];
    for i in 0..most {
        if let Err(FillError::NotPresent) = rt.arg(i, &mut buffer) {
            return i;
        }
    }
    most
}
