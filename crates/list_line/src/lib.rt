// The line of a version. The Sets of the object are given twice: those in dispute by their names, and all by their
// stamps. Pieces of it are kept for the lines that follow.
#![tactic(auto)]

pub mod alone;
pub mod pieces;
#[cfg(test)]
mod tests;

ghost use Rattle.std.specs.Prelude.{◌≡◌, cond, ◌+◌, ◌*◌, ◌≤◌, ◌<◌, length, take};
ghost use mathlib.Core.List.{[], ◌∷◌, ◌++◌, flat_map};
ghost use Rattle.edit_record.specs.Layout.{keys};
ghost use Rattle.group_step.specs.GroupRows.{most_sets};
ghost use Rattle.list_text.specs.Pieces.{space, plus, dotted_length, equated_length};
ghost use Rattle.list_line.specs.Line.{name_text, identifier_text};
ghost use Rattle.list_line.specs.Line.{identifier_length, settings_length, line_length};
ghost use Rattle.list_version.specs.VersionForms.{name_by, is_in, identifier_by, KeyedBy};
ghost use Rattle.list_line.specs.LineForms.{stamp_text, settings_by, line_by, line_in, piece_length, pieces, Kept};
ghost use Rattle.list_line.specs.LineForms.{NameIn, NamesKept, SameNames};

use group_step::{SETS, has};
use list_text::{DOTTED, EQUATED, MINUS, NEWLINE, SPACE, put_byte, put_dotted};
use list_version::gathered::Workspace;
use list_version::values::last_of;
use list_version::{ALL_KEYS, NUMBERS};
use pieces::{PIECE, Pieces, is_kept, put_anew, put_piece};

// The bytes that a line has at most: the Create; for each Set a separator and its name; for each key a space, the key,
// `=` and the value; and a newline.
pub const LINE: usize = DOTTED + (1 + DOTTED) * SETS + (1 + EQUATED) * ALL_KEYS + 1;

// The bytes of a buffer that a line is formed in: a piece is copied with what stands behind it.
pub const BUFFER: usize = LINE + PIECE;

// Puts `+` and the name of the i-th Set in dispute, x, if that is a member of g.
fn put_member(
    out: &mut [u8],
    n: usize,
    texts: &[u8],
    lens: &[u8],
    i: usize,
    x: u64,
    g: u64,
) -> usize
    requires { (i < most_sets)
        × (n + piece_length ≤ length out.old)
        × (length texts.now ≡ pieces * piece_length)
        × (length lens.now ≡ pieces)
        × NameIn texts.now lens.now i x }
    ensures { (take result out.new
        ≡ take n out.old ++ cond (is_in g x) (plus ∷ name_text (name_by x)) [])
        × (result ≤ n + (1 + dotted_length)) }
{
    if !has(g, (x % NUMBERS) as usize) {
        return n;
    }
    put_piece(out, n, texts, lens, ALL_KEYS + i)
}

// Puts `+` and the name of each of the d Sets in dispute that is a member of g.
fn put_members(
    out: &mut [u8],
    n: usize,
    texts: &[u8],
    lens: &[u8],
    disputes: &[u64],
    d: usize,
    g: u64,
) -> usize
    requires { (d ≤ length disputes.now)
        × (d ≤ most_sets)
        × (n + d * (1 + dotted_length) + piece_length ≤ length out.old)
        × (length texts.now ≡ pieces * piece_length)
        × (length lens.now ≡ pieces)
        × NamesKept texts.now lens.now (take d disputes.now) }
    ensures { (take result out.new ≡ take n out.old
        ++ flat_map (λ y. plus ∷ name_text y) (identifier_by (take d disputes.now) g))
        × (result ≤ n + d * (1 + dotted_length)) }
{
    let mut w = n;
    for (i, &x) in disputes[..d].iter().enumerate() {
        w = put_member(out, w, texts, lens, i, x, g);
    }
    w
}

// Puts a space and the identifier of the group g, by the d Sets in dispute: the names with a space in the place of the
// first `+`.
fn put_identifier(
    out: &mut [u8],
    n: usize,
    texts: &[u8],
    lens: &[u8],
    disputes: &[u64],
    d: usize,
    g: u64,
) -> usize
    requires { (d ≤ length disputes.now)
        × (d ≤ most_sets)
        × (n + identifier_length + piece_length ≤ length out.old)
        × (length texts.now ≡ pieces * piece_length)
        × (length lens.now ≡ pieces)
        × NamesKept texts.now lens.now (take d disputes.now) }
    ensures { (take result out.new ≡ take n out.old
        ++ (space ∷ identifier_text (identifier_by (take d disputes.now) g)))
        × (result ≤ n + identifier_length) }
{
    let w = put_members(out, n, texts, lens, disputes, d, g);
    if w == n {
        let k = put_byte(out, n, SPACE);
        return put_byte(out, k, MINUS);
    }
    out[n] = SPACE;
    w
}

// Puts ` key=value` by the stamp s, or nothing if it is 0.
fn put_setting(
    out: &mut [u8],
    n: usize,
    texts: &mut [u8],
    lens: &mut [u8],
    told: &mut [u64],
    key: usize,
    s: u64,
) -> usize
    requires { (key < keys)
        × (n + piece_length ≤ length out.old)
        × Kept texts.old lens.old told.old }
    ensures { (take result out.new ≡ take n out.old ++ stamp_text key s)
        × (result ≤ n + (1 + equated_length))
        × Kept texts.new lens.new told.new
        × SameNames texts.old lens.old texts.new lens.new }
{
    if s == 0 {
        return n;
    }
    if is_kept(lens, told, key, s) {
        return put_piece(out, n, texts, lens, key);
    }
    put_anew(out, n, texts, lens, told, key, s)
}

// Puts ` key=value` for each key that a member of g sets, ascending, by the stamps of the t Sets and what is noted of
// their keys.
fn put_settings(
    out: &mut [u8],
    n: usize,
    texts: &mut [u8],
    lens: &mut [u8],
    told: &mut [u64],
    stamps: &[u64],
    t: usize,
    keyed: &[u64],
    peaks: u64,
    g: u64,
) -> usize
    requires { (n + settings_length + piece_length ≤ length out.old)
        × Kept texts.old lens.old told.old
        × (t ≤ length stamps.now)
        × (t ≤ most_sets)
        × (keys ≤ length keyed.now)
        × KeyedBy stamps.now keyed.now peaks t }
    ensures { (take result out.new
        ≡ take n out.old ++ settings_by (take t stamps.now) g keys)
        × (result ≤ n + settings_length)
        × Kept texts.new lens.new told.new
        × SameNames texts.old lens.old texts.new lens.new }
{
    let mut w = n;
    for k in 0..ALL_KEYS {
        let s = last_of(stamps, t, keyed, peaks, g, k);
        w = put_setting(out, w, texts, lens, told, k, s);
    }
    w
}

// Puts at the front the line of the version g of the object whose Create is site.seq, by the d Sets in dispute, the
// stamps of the t Sets and what is noted of their keys; says how many bytes it has. The names of the Sets in dispute
// are put in their places before.
pub fn put_line(
    out: &mut [u8],
    texts: &mut [u8],
    lens: &mut [u8],
    told: &mut [u64],
    site: u8,
    seq: u16,
    disputes: &[u64],
    d: usize,
    stamps: &[u64],
    t: usize,
    keyed: &[u64],
    peaks: u64,
    g: u64,
) -> usize
    requires { (d ≤ length disputes.now)
        × (d ≤ most_sets)
        × (line_length + piece_length ≤ length out.old)
        × Kept texts.old lens.old told.old
        × NamesKept texts.old lens.old (take d disputes.now)
        × (t ≤ length stamps.now)
        × (t ≤ most_sets)
        × (keys ≤ length keyed.now)
        × KeyedBy stamps.now keyed.now peaks t }
    ensures { (take result out.new
        ≡ line_by site seq (take d disputes.now) (take t stamps.now) g)
        × (result ≤ line_length)
        × Kept texts.new lens.new told.new
        × NamesKept texts.new lens.new (take d disputes.now) }
{
    let a = put_dotted(out, 0, site, seq);
    let b = put_identifier(out, a, texts, lens, disputes, d, g);
    let w = put_settings(out, b, texts, lens, told, stamps, t, keyed, peaks, g);
    put_byte(out, w, NEWLINE)
}

// The same of the version v of what is gathered of an object, by the pieces kept.
pub fn put_line_of(out: &mut [u8], kept: &mut Pieces, g: &Workspace, v: u64) -> usize
    requires { (line_length + piece_length ≤ length out.old)
        × NamesKept kept.old.texts kept.old.lens (take g.now.disputed g.now.disputes) }
    ensures { (take result out.new ≡ line_in g.now v)
        × (result ≤ line_length)
        × NamesKept kept.new.texts kept.new.lens (take g.now.disputed g.now.disputes) }
{
    put_line(
        out,
        &mut kept.texts,
        &mut kept.lens,
        &mut kept.told,
        g.site,
        g.seq,
        &g.disputes,
        g.disputed,
        &g.stamps,
        g.sets,
        &g.keyed,
        g.peaks,
        v,
    )
}
