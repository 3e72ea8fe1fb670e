// The lines of the printed list by their numbers: line 0, and the line of each version.
#![tactic(auto)]

ghost use Rattle.std.specs.Prelude.{◌≡◌, true, [], ◌≤◌, ◌<◌, length, get_or, take};
ghost use Rattle.std.specs.Result.{result_unwrap_or};
ghost use Rattle.math_lists.specs.NumbersBelow.{sum};
ghost use Rattle.edit_walk.specs.WalkForms.{Indexed};
ghost use Rattle.group_step.specs.GroupRows.{most_objects};
ghost use Rattle.table_drawing.specs.Tables.{groups_at, tables_of};
ghost use Rattle.table_drawing.specs.AnswerNumbers.{answer_of};
ghost use Rattle.table_soundness.specs.Sound.{sound};
ghost use Rattle.table_output.specs.Output.{writing};
ghost use Rattle.list_line.specs.Line.{line_length};
ghost use Rattle.list_lines.specs.List.{lines_for, lines_of};
ghost use Rattle.list_lines.specs.LineByNumber.{line_of};
ghost use Rattle.list_lines.specs.LinesForms.{head_of, FoundIn, NumberedAs};

use edit_walk::PLACES;
use group_step::{OBJECTS, SETS};
use list_line::LINE;
use list_line::alone::put_lone_line_of;
use list_objects::order::sort_objects;
use list_objects::{gather_in, put_sets};
use list_version::gathered::Workspace;
use table_drawing::entries::at16;
use table_drawing::{Counters, ENTRY, Refusal};
use table_output::put_at;

// Where a line of a version is found: the object, and which of its versions it is.
#[derive(Clone, Copy)]
struct LinePlace {
    object: usize,
    version: usize,
}

// How many versions the first m objects have.
fn version_total(objects: &[u16], m: usize) -> u32
    requires { m ≤ most_objects }
    ensures { result ≡ sum m (groups_at objects.now) }
{
    let mut total: u32 = 0;
    for o in 0..m {
        total += at16(objects, o * ENTRY + 2) as u32;
    }
    total
}

// Puts line 0 at the front of out.
pub fn head(out: &mut [u8], c: Counters, objects: &[u16]) -> usize
    requires { (c.objects ≤ most_objects) × (line_length ≤ length out.old) }
    ensures { (take result out.new ≡ head_of c objects.now) × (result ≤ line_length) }
{
    let total = version_total(objects, c.objects as usize);
    list_text::put_head(out, c.sites as u32, c.objects as u32, total, c.sum)
}

// Where the k-th line of a version is found, line 0 left out, if there is one, by the index of the records' places.
fn find(
    c: Counters,
    records: &[u8],
    objects: &[u16],
    groups: &[u64],
    places: &[u16],
    k: usize,
) -> Option<LinePlace>
    requires { (sound (tables_of c records.now objects.now groups.now) ≡ true)
        × Indexed records.now c.records places.now }
    ensures { FoundIn (tables_of c records.now objects.now groups.now) k result }
{
    let mut order = [0u16; OBJECTS];
    sort_objects(
        &mut order,
        records,
        c.records as usize,
        objects,
        c.objects as usize,
        places,
    );
    let mut left = k;
    for i in 0..c.objects as usize {
        let o = at16(&order, i) as usize;
        let count = at16(objects, o * ENTRY + 2) as usize;
        if left < count {
            return Some(LinePlace {
                object: o,
                version: left,
            });
        }
        left -= count;
    }
    None
}

// Puts the line of a version of object o at the front of out.
fn put_found(
    out: &mut [u8],
    c: Counters,
    records: &[u8],
    objects: &[u16],
    groups: &[u64],
    o: usize,
    v: usize,
) -> usize
    requires { (sound (tables_of c records.now objects.now groups.now) ≡ true)
        × (o < c.objects)
        × (v < length (lines_for (tables_of c records.now objects.now groups.now) o))
        × (line_length ≤ length out.old) }
    ensures { (take result out.new
        ≡ get_or (lines_for (tables_of c records.now objects.now groups.now) o) v [])
        × (result ≤ line_length) }
{
    // what work space holds at first does not matter; zeros would be set by memset (docs/DECISIONS.md, 24)
    let mut places = [1u16; SETS];
    put_sets(&mut places, c, records, objects, groups, o);
    let mut g = Workspace::none();
    gather_in(&mut g, c, records, objects, groups, &places, o);
    put_lone_line_of(out, &g, g.versions[v])
}

// Puts line k at the front of out, if there is one, by the index of the records' places; says how many bytes it has.
fn put_numbered(
    out: &mut [u8],
    c: Counters,
    records: &[u8],
    objects: &[u16],
    groups: &[u64],
    places: &[u16],
    k: usize,
) -> Option<usize>
    requires { (sound (tables_of c records.now objects.now groups.now) ≡ true)
        × Indexed records.now c.records places.now
        × (line_length ≤ length out.old) }
    ensures { NumberedAs
        (lines_of (tables_of c records.now objects.now groups.now))
        k result out.new }
{
    if k == 0 {
        return Some(head(out, c, objects));
    }
    let f = find(c, records, objects, groups, places, k - 1)?;
    Some(put_found(out, c, records, objects, groups, f.object, f.version))
}

// Puts line k into out from the start on, and says how many bytes it has; refused, everything stays as it was.
pub fn print_line(
    c: Counters,
    records: &[u8],
    objects: &[u16],
    groups: &[u64],
    k: usize,
    out: &mut [u8],
    start: usize,
) -> Result<usize, Refusal>
    ensures { writing (answer_of result) (result_unwrap_or result 0) out.new
        ≡ line_of (tables_of c records.now objects.now groups.now) k
        out.old start }
{
    // what work space holds at first does not matter; zeros would be set by memset (docs/DECISIONS.md, 24)
    let mut places = [1u16; PLACES];
    if !table_soundness::is_sound_with(c, records, objects, groups, &mut places) {
        return Err(Refusal::Unsound);
    }
    let mut line = [1u8; LINE];
    let Some(bytes) = put_numbered(&mut line, c, records, objects, groups, &places, k) else {
        return Err(Refusal::NoLine);
    };
    put_at(out, start, &line, bytes)
}
