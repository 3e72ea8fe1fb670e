// All lines, put at the front of the output one behind another where they have room.
ghost use Rattle.std.specs.Prelude.{◌≡◌, true, ◌+◌, ◌*◌, ◌≤◌, ◌<◌, length};
ghost use Rattle.group_step.specs.GroupRows.{most_objects, most_groups};
ghost use Rattle.table_drawing.specs.Tables.{tables_of};
ghost use Rattle.edit_walk.specs.WalkForms.{Indexed};
ghost use Rattle.table_soundness.specs.Sound.{sound};
ghost use Rattle.table_sets.specs.ChainForms.{Chained};
ghost use Rattle.list_line.specs.Line.{line_length};
ghost use Rattle.list_line.specs.LineForms.{piece_length};
ghost use Rattle.list_lines.specs.List.{lines_for};
ghost use Rattle.list_print.specs.Printing.{joined, list_of, list_length};
ghost use Rattle.list_lines.specs.LinesForms.{head_of};
ghost use Rattle.list_print.specs.PrintForms.{all_lines, Behind};

use super::object_lines::{put_behind, put_versions};
use edit_history::RECORDS;
use group_step::{OBJECTS, SETS};
use list_line::BUFFER;
use list_line::pieces::Pieces;
use list_lines::head;
use list_objects::order::sort_objects;
use list_objects::{gather_in, put_chained};
use list_version::gathered::Workspace;
use table_drawing::Counters;
use table_index::Index;

// Puts line 0 at the front; says where it ends. The line is formed in a buffer of its own.
fn put_head(out: &mut [u8], line: &mut [u8], c: Counters, objects: &[u16]) -> usize
    requires { (c.objects ≤ most_objects) × (line_length ≤ length line.old) }
    ensures { Behind out.old 0 (head_of c objects.now) line_length out.new result }
{
    let k = head(line, c, objects);
    put_behind(out, 0, line, k)
}

// Puts the lines of object o behind the first n bytes. The pieces and what is gathered are lent from object to object.
fn put_object(
    out: &mut [u8],
    line: &mut [u8],
    kept: &mut Pieces,
    g: &mut Workspace,
    n: usize,
    c: Counters,
    records: &[u8],
    objects: &[u16],
    groups: &[u64],
    chain: &[u16],
    o: usize,
) -> usize
    requires { (sound (tables_of c records.now objects.now groups.now) ≡ true)
        × Chained records.now c.records chain.now
        × (o < c.objects)
        × (n + most_groups * line_length ≤ list_length)
        × (line_length + piece_length ≤ length line.old) }
    ensures { Behind out.old n
        (joined (lines_for (tables_of c records.now objects.now groups.now) o))
        (most_groups * line_length) out.new result }
{
    // what work space holds at first does not matter; zeros would be set by memset (docs/DECISIONS.md, 24)
    let mut places = [1u16; SETS];
    put_chained(&mut places, c, records, objects, groups, chain, o);
    gather_in(g, c, records, objects, groups, &places, o);
    put_versions(out, line, kept, n, g)
}

// Puts the lines of all objects behind the first n bytes, in their order, by the index of the records' places and the
// chain of the Sets of each object.
fn put_objects(
    out: &mut [u8],
    line: &mut [u8],
    n: usize,
    c: Counters,
    records: &[u8],
    objects: &[u16],
    groups: &[u64],
    places: &[u16],
    chain: &[u16],
) -> usize
    requires { (sound (tables_of c records.now objects.now groups.now) ≡ true)
        × Indexed records.now c.records places.now
        × Chained records.now c.records chain.now
        × (n + most_objects * (most_groups * line_length) ≤ list_length)
        × (line_length + piece_length ≤ length line.old) }
    ensures { Behind out.old n
        (all_lines (tables_of c records.now objects.now groups.now))
        (most_objects * (most_groups * line_length)) out.new result }
{
    let m = c.objects as usize;
    // what work space holds at first does not matter; zeros would be set by memset (docs/DECISIONS.md, 24)
    let mut order = [1u16; OBJECTS];
    sort_objects(&mut order, records, c.records as usize, objects, m, places);
    let mut kept = Pieces::none();
    let mut g = Workspace::none();
    let mut w = n;
    for i in 0..m {
        let o = order[i] as usize;
        w = put_object(
            out, line, &mut kept, &mut g, w, c, records, objects, groups, chain, o,
        );
    }
    w
}

// Puts all lines at the front, by the index of the records' places; says how many bytes they have.
pub fn put_list_by(
    out: &mut [u8],
    c: Counters,
    records: &[u8],
    objects: &[u16],
    groups: &[u64],
    places: &[u16],
) -> usize
    requires { (sound (tables_of c records.now objects.now groups.now) ≡ true)
        × Indexed records.now c.records places.now }
    ensures { Behind out.old 0
        (list_of (tables_of c records.now objects.now groups.now))
        list_length out.new result }
{
    let mut line = [0u8; BUFFER];
    let w = put_head(out, &mut line, c, objects);
    // what work space holds at first does not matter; zeros would be set by memset (docs/DECISIONS.md, 24)
    let mut chain = [1u16; RECORDS];
    table_sets::chain_sets(records, c.records as usize, places, &mut chain);
    put_objects(
        out, &mut line, w, c, records, objects, groups, places, &chain,
    )
}

// The same, and the index is made first.
pub fn put_list(
    out: &mut [u8],
    c: Counters,
    records: &[u8],
    objects: &[u16],
    groups: &[u64],
) -> usize
    requires { sound (tables_of c records.now objects.now groups.now) ≡ true }
    ensures { Behind out.old 0
        (list_of (tables_of c records.now objects.now groups.now))
        list_length out.new result }
{
    let mut ix = Index::none();
    table_index::build(&mut ix, records, c.records as usize);
    put_list_by(out, c, records, objects, groups, &ix.places)
}
