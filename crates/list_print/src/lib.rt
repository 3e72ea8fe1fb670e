// The printed list of versions of document 01: all lines in one pass.
#![tactic(auto)]

pub mod all_lines;
mod object_lines;

ghost use Rattle.std.specs.Prelude.{◌≡◌, true, length};
ghost use Rattle.std.specs.Result.{result_unwrap_or};
ghost use Rattle.edit_walk.specs.WalkForms.{Indexed};
ghost use Rattle.table_drawing.specs.Tables.{tables_of};
ghost use Rattle.table_drawing.specs.AnswerNumbers.{answer_of};
ghost use Rattle.table_soundness.specs.Sound.{sound};
ghost use Rattle.table_output.specs.Output.{writing};
ghost use Rattle.list_print.specs.Printing.{list_of, listing_of};

use all_lines::put_list_by;
use edit_walk::PLACES;
use group_step::{GROUPS, OBJECTS};
use list_line::LINE;
use table_drawing::{Counters, Refusal};
use table_output::has_room;

// The bytes that a list has at most: line 0 is no longer than another line may be.
pub const LIST: usize = (1 + OBJECTS * GROUPS) * LINE;

// How many bytes all lines have: they are put where none has room.
fn list_bytes(c: Counters, records: &[u8], objects: &[u16], groups: &[u64], places: &[u16]) -> usize
    requires { (sound (tables_of c records.now objects.now groups.now) ≡ true)
        × Indexed records.now c.records places.now }
    ensures { result ≡ length (list_of (tables_of c records.now objects.now groups.now)) }
{
    let mut none = [0u8; 1];
    put_list_by(&mut none, c, records, objects, groups, places)
}

// Puts all lines into out from the start on, if they have room there, and says how many bytes they have; refused,
// everything stays as it was. Where the longest list has room nothing is measured first.
pub fn print_list(
    c: Counters,
    records: &[u8],
    objects: &[u16],
    groups: &[u64],
    out: &mut [u8],
    start: usize,
) -> Result<usize, Refusal>
    ensures { writing (answer_of result) (result_unwrap_or result 0) out.new
        ≡ listing_of (tables_of c records.now objects.now groups.now)
        out.old start }
{
    // what work space holds at first does not matter; zeros would be set by memset (docs/DECISIONS.md, 24)
    let mut places = [1u16; PLACES];
    if !table_soundness::is_sound_with(c, records, objects, groups, &mut places) {
        return Err(Refusal::Unsound);
    }
    if !has_room(out.len(), start, LIST) {
        let least = list_bytes(c, records, objects, groups, &places);
        if !has_room(out.len(), start, least) {
            return Err(Refusal::NoRoom);
        }
    }
    let bytes = put_list_by(&mut out[start..], c, records, objects, groups, &places);
    Ok(bytes)
}
