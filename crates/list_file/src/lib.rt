// What the program drawlist prints of a file, on slices: the list of the drawing that the file stores, or the line of
// its refusal. Tables of an accepted file are sound by proof, so their soundness is not tested.
#![tactic(auto)]

ghost use Rattle.std.specs.Prelude.{◌≡◌, ◌≤◌, length, take};
ghost use Rattle.list_print.specs.Printing.{list_length};
ghost use Rattle.list_file.specs.PrintedFile.{printed_of};

use edit_history::RECORDS;
use edit_record::{PLACE, SITES};
use group_step::{GROUPS, OBJECTS};
use list_print::all_lines::put_list;
use list_text::put_refusal;
use table_drawing::{Counters, ENTRY};

// Puts what is printed of a file, any bytes, at the front of out; says how many bytes that are.
pub fn print_file(out: &mut [u8], file: &[u8]) -> usize
    requires { list_length ≤ length out.old }
    ensures { (take result out.new ≡ printed_of file.now) × (result ≤ list_length) }
{
    let mut records = [0u8; RECORDS * PLACE];
    let mut objects = [0u16; OBJECTS * ENTRY];
    let mut groups = [0u64; OBJECTS * GROUPS];
    let none = Counters {
        sites: 0,
        records: 0,
        objects: 0,
        held: [0u16; SITES],
        sum: 0,
    };
    match block_store::read_file(none, &mut records, &mut objects, &mut groups, file) {
        Ok(c) => put_list(out, c, &records, &objects, &groups),
        Err(e) => put_refusal(out, u8::from(e.refusal) as u32),
    }
}
