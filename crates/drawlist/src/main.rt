// Reads a file on standard input and prints the list of the drawing that it stores, or the line of its refusal, on
// standard output; with arguments, the same for each file that they name, one after another. What is printed is the
// proved function `list_file::print_file`.
#![tactic(auto)]

ghost use Rattle.std.specs.Prelude.{◌≡◌, ◌+◌, ◌≤◌, length, take, OnOk, IfSome};
ghost use Rattle.std.specs.Io.KnownBytes.{Appends};
ghost use Rattle.block_trailer.specs.Trailer.{file_limit};
ghost use Rattle.list_print.specs.Printing.{list_length};
ghost use Rattle.list_file.specs.PrintedFile.{printed_of};

use std::io::{self, Read, Write};
use std::rt::Runtime;

// One byte more than a file that is read may have.
const MOST: usize = block_trailer::FILE_LIMIT + 1;

fn buffer() -> [u8; MOST]
    ensures { file_limit + 1 ≡ length result }
{
    [0; MOST]
}

fn room() -> [u8; list_print::LIST]
    ensures { list_length ≡ length result }
{
    [0; list_print::LIST]
}

// Prints a file, with room for the longest list.
fn print<W: Write>(to: &mut W, out: &mut [u8], file: &[u8]) -> io::Result<()>
    requires { list_length ≤ length out.old }
    ensures { OnOk result (Appends (W.contents to.old) (W.contents to.new) (printed_of file.now)) }
{
    let k = list_file::print_file(out, file);
    to.write_all(&out[..k])
}

// Prints what can be read, of which one byte past the limit is the last.
fn print_from<R: Read, W: Write>(from: &mut R, to: &mut W) -> io::Result<()>
    ensures { OnOk result (IfSome (R.remaining from.old)
        (λ xs. Appends (W.contents to.old) (W.contents to.new) (printed_of (take (file_limit + 1) xs)))) }
{
    let mut file = buffer();
    let n = program_input::read_full(from, &mut file)?;
    let mut out = room();
    print(to, &mut out, &file[..n])
}

fn print_named<R: Runtime + AllocGlobal>(rt: &R, path: &str) -> io::Result<()> {
    let mut file = buffer();
    match program_input::read_named(rt, path, &mut file) {
        Ok(n) => {
            let mut out = room();
            print(&mut io::writer(rt), &mut out, &file[..n])
        }
        Err(error) => program_input::tell_unread(rt, path, error),
    }
}

// Prints the file that the argument i names, and says whether there is one.
fn print_argument<R: Runtime + AllocGlobal>(rt: &R, i: usize) -> io::Result<bool> {
    let mut bytes = [0u8; program_input::PATH];
    match program_input::argument(rt, i, &mut bytes) {
        Ok(None) => return Ok(false),
        Ok(Some(path)) => print_named(rt, path)?,
        Err(error) => eprintln!(rt; "argument {i}: {error}")?,
    }
    Ok(true)
}

fn main(rt: HostRuntime) -> io::Result<()> {
    if !print_argument(&rt, 1)? {
        return print_from(&mut rt.reader(), &mut io::writer(&rt));
    }
    for i in 2..usize::MAX {
        if !print_argument(&rt, i)? {
            break;
        }
    }
    Ok(())
}
