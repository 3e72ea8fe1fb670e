// The lines of a gathered object, put into the output one behind another where they have room.
ghost use Rattle.std.specs.Prelude.{map, ◌+◌, ◌*◌, ◌≤◌, ◌<◌, length, take, get_or};
ghost use Rattle.group_step.specs.GroupRows.{most_groups};
ghost use Rattle.list_line.specs.Line.{line_length};
ghost use Rattle.list_line.specs.LineForms.{line_in, piece_length, NamesKept};
ghost use Rattle.list_print.specs.Printing.{joined, list_length};
ghost use Rattle.list_print.specs.PrintForms.{Behind};

use list_line::alone::put_lone_line_of;
use list_line::pieces::Pieces;
use list_line::put_line_of;
use list_version::gathered::Workspace;
use table_output::{copy_in, has_room};

// Puts the first k bytes of a line behind the first n bytes of out, if they have room there; says where they end, room
// or none. So one pass serves to print a list and to tell how long it is.
pub fn put_behind(out: &mut [u8], n: usize, line: &[u8], k: usize) -> usize
    requires { (k ≤ length line.now) × (n + k ≤ list_length) }
    ensures { Behind out.old n (take k line.now) k out.new result }
{
    if !has_room(out.len(), n, k) {
        return n + k;
    }
    copy_in(&mut out[n..], line, k);
    n + k
}

// Puts the line of the v-th version of the object gathered behind the first n bytes. The line is formed in a buffer of
// its own, so that no other byte of out changes.
fn put_version(
    out: &mut [u8],
    line: &mut [u8],
    kept: &mut Pieces,
    n: usize,
    g: &Workspace,
    v: usize,
) -> usize
    requires { (v < most_groups)
        × (n + line_length ≤ list_length)
        × (line_length + piece_length ≤ length line.old)
        × NamesKept kept.old.texts kept.old.lens (take g.now.disputed g.now.disputes) }
    ensures { Behind out.old n (line_in g.now (get_or g.now.versions v 0)) line_length out.new result
        × NamesKept kept.new.texts kept.new.lens (take g.now.disputed g.now.disputes) }
{
    let k = put_line_of(line, kept, g, g.versions[v]);
    put_behind(out, n, line, k)
}

// Puts the lines of all versions behind the first n bytes, one after another. The names of the Sets in dispute are
// formed once for all of them.
fn put_each(out: &mut [u8], line: &mut [u8], kept: &mut Pieces, n: usize, g: &Workspace) -> usize
    requires { (n + most_groups * line_length ≤ list_length)
        × (line_length + piece_length ≤ length line.old) }
    ensures { Behind out.old n
        (joined (map (line_in g.now) (take g.now.count g.now.versions))) (g.now.count * line_length) out.new result }
{
    kept.put_names(&g.disputes, g.disputed);
    let mut w = n;
    for v in 0..g.count {
        w = put_version(out, line, kept, w, g, v);
    }
    w
}

// Puts the line of the only version of the object gathered behind the first n bytes.
fn put_alone(out: &mut [u8], line: &mut [u8], n: usize, g: &Workspace) -> usize
    requires { (n + line_length ≤ list_length) × (line_length ≤ length line.old) }
    ensures { Behind out.old n (line_in g.now (get_or g.now.versions 0 0)) line_length out.new result }
{
    let k = put_lone_line_of(line, g, g.versions[0]);
    put_behind(out, n, line, k)
}

// Puts the lines of all versions behind the first n bytes; of one version alone no piece is kept.
pub fn put_versions(
    out: &mut [u8],
    line: &mut [u8],
    kept: &mut Pieces,
    n: usize,
    g: &Workspace,
) -> usize
    requires { (n + most_groups * line_length ≤ list_length)
        × (line_length + piece_length ≤ length line.old) }
    ensures { Behind out.old n
        (joined (map (line_in g.now) (take g.now.count g.now.versions))) (g.now.count * line_length) out.new result }
{
    if g.count == 1 {
        return put_alone(out, line, n, g);
    }
    put_each(out, line, kept, n, g)
}
