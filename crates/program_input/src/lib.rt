// What a program takes in: its arguments, the bytes of a file, and the line that says why a file was not read. Assumes
// nothing.
#![tactic(auto)]

ghost use Rattle.std.specs.Prelude.{◌≡◌, ◌≤◌, length, take, IfOk, IfSome};

use std::env::{Env, FillError};
use std::fs::File;
use std::io::{self, ErrorKind, Read};
use std::rt::Files;
use std::str;

// An argument that names a file has at most so many bytes, as a path has.
pub const PATH: usize = 4096;

// The argument i, where 0 is the program's name, or None past the last one; its bytes are put into `bytes`. One that is
// too long for them, or no UTF-8 text, names no file that can be opened, and is an error.
pub fn argument<'a, R: Env>(rt: &R, i: usize, bytes: &'a mut [u8]) -> io::Result<Option<&'a str>> {
    let n = match rt.arg(i, bytes) {
        Ok(n) => n,
        Err(FillError::NotPresent) => return Ok(None),
        Err(FillError::TooLong) => return Err(io::Error::from(ErrorKind::InvalidFilename)),
    };
    match str::from_utf8(&bytes[..n]) {
        Ok(text) => Ok(Some(text)),
        Err(_) => Err(io::Error::from(ErrorKind::InvalidData)),
    }
}

// Reads until buf is full or the input ends, and says how many bytes it put at the front of buf.
pub fn read_full<R: Read>(from: &mut R, buf: &mut [u8]) -> io::Result<usize>
    ensures within { IfOk result (λ n. n ≤ length buf.new) }
    ensures bytes { IfOk result
        (λ n. IfSome (R.remaining from.old) (λ xs. take n buf.new ≡ take (length buf.new) xs)) }
{
    let mut done = 0;
    // goes on by as much as each turn read
    while done < buf.len() {
        let n = from.read(&mut buf[done..])?;
        if n == 0 {
            break;
        }
        done += n;
    }
    Ok(done)
}

// Reads the start of the file of that name, as `read_full` does.
pub fn read_named<R: Files>(rt: &R, path: &str, buf: &mut [u8]) -> io::Result<usize>
    ensures { IfOk result (λ n. n ≤ length buf.new) }
{
    let mut file = File::open(rt, path)?;
    read_full(&mut file, buf)
}

// Says on standard error why a file was not read, in the system's words.
pub fn tell_unread<R: Eprint + AllocGlobal>(
    rt: &R,
    path: &str,
    error: io::Error,
) -> io::Result<()> {
    let text = format!(in rt.alloc(); "{error}")?;
    match text.as_str().split_once(" (os error ") {
        Some((words, _)) => eprintln!(rt; "{path}: {words}"),
        None => eprintln!(rt; "{path}: {text}"),
    }
}
