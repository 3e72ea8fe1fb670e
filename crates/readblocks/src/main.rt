// Reads each file that its arguments name, and says on one line what became of it: the answer, the index of the refused
// record, N, the number of records held, and whether the drawing, written again, is the stretch that was located and
// its trailer, as a long block is. It serves the comparison with files made elsewhere (data/, by tools/blocks).
#![tactic(auto)]

ghost use Rattle.std.specs.Prelude.{◌≡◌, length};

use edit_history::RECORDS;
use edit_record::{PLACE, SITES};
use group_step::{GROUPS, OBJECTS};
use std::io;
use std::rt::Runtime;
use table_drawing::{Counters, ENTRY};

// One byte more than a file that is read may have.
const MOST: usize = block_trailer::FILE_LIMIT + 1;

fn buffer() -> [u8; MOST]
    ensures { 65537 ≡ length result }
{
    [0; MOST]
}

fn tell_written<R: Print>(rt: &R, n: usize, out: &[u8], file: &[u8]) -> io::Result<()> {
    print!(rt; ", written {n}")?;
    if n == 0 {
        return Ok(());
    }
    if n > block_trailer::FILE_LIMIT {
        return Ok(());
    }
    let count = n.min(out.len());
    if file.ends_with(&out[..count]) {
        print!(rt; " the same")?;
    }
    Ok(())
}

fn tell_read<R: Print>(rt: &R, answer: u8, index: usize, c: Counters) -> io::Result<()> {
    print!(rt; ": answer {answer}, index {index}")?;
    print!(rt; ", sites {}, records {}", c.sites, c.records)
}

fn tell<R: Print>(rt: &R, file: &[u8]) -> io::Result<()> {
    let mut records = [0u8; RECORDS * PLACE];
    let mut objects = [0u16; OBJECTS * ENTRY];
    let mut groups = [0u64; OBJECTS * GROUPS];
    let none = Counters {
        sites: 0,
        records: 0,
        objects: 0,
        held: [0u16; SITES],
        sum: 0,
    };
    let r = block_store::read_file(none, &mut records, &mut objects, &mut groups, file);
    let (answer, index, c) = match r {
        Ok(c) => (0, 0, c),
        Err(e) => (u8::from(e.refusal), e.index, e.counters),
    };
    let mut out = [0u8; RECORDS * PLACE + block_trailer::TRAILER];
    let w = block_store::write(c, &records, &objects, &groups, &mut out, 0);
    tell_read(rt, answer, index, c)?;
    tell_written(rt, w.unwrap_or(0), &out, file)?;
    println!(rt;)
}

fn open<R: Runtime + AllocGlobal>(rt: &R, path: &str) -> io::Result<()> {
    let mut file = buffer();
    match program_input::read_named(rt, path, &mut file) {
        Ok(n) => {
            print!(rt; "{path}")?;
            tell(rt, &file[..n])
        }
        Err(error) => program_input::tell_unread(rt, path, error),
    }
}

// Opens the file that the argument i names, and says whether there is one.
fn open_argument<R: Runtime + AllocGlobal>(rt: &R, i: usize) -> io::Result<bool> {
    let mut bytes = [0u8; program_input::PATH];
    match program_input::argument(rt, i, &mut bytes) {
        Ok(None) => return Ok(false),
        Ok(Some(path)) => open(rt, path)?,
        Err(error) => eprintln!(rt; "argument {i}: {error}")?,
    }
    Ok(true)
}

fn main(rt: HostRuntime) -> io::Result<()> {
    for i in 1..usize::MAX {
        if !open_argument(&rt, i)? {
            break;
        }
    }
    Ok(())
}
