// The line of a version that no other line of its object follows: its pieces are formed where they stand in the line,
// and none is kept.
ghost use Rattle.std.specs.Prelude.{◌≡◌, cond, ◌+◌, ◌*◌, ◌≤◌, ◌<◌, length, take};
ghost use mathlib.Core.List.{[], ◌∷◌, ◌++◌, flat_map};
ghost use Rattle.edit_record.specs.Layout.{keys};
ghost use Rattle.group_step.specs.GroupRows.{most_sets};
ghost use Rattle.list_text.specs.Pieces.{space, plus, dotted_length, equated_length};
ghost use Rattle.list_line.specs.Line.{name_text, identifier_text};
ghost use Rattle.list_line.specs.Line.{identifier_length, settings_length, line_length};
ghost use Rattle.list_version.specs.VersionForms.{name_by, is_in, identifier_by, KeyedBy};
ghost use Rattle.list_line.specs.LineForms.{stamp_text, settings_by, line_by, line_in};

use super::pieces::{form_name, form_setting};
use group_step::has;
use list_text::{MINUS, NEWLINE, SPACE, put_byte, put_dotted};
use list_version::gathered::Workspace;
use list_version::values::last_of;
use list_version::{ALL_KEYS, NUMBERS};

// Puts `+` and the name of the Set in dispute x, if that is a member of g.
fn put_lone_name(out: &mut [u8], n: usize, x: u64, g: u64) -> usize
    requires { n + (1 + dotted_length) ≤ length out.old }
    ensures { (take result out.new
        ≡ take n out.old ++ cond (is_in g x) (plus ∷ name_text (name_by x)) [])
        × (result ≤ n + (1 + dotted_length)) }
{
    if !has(g, (x % NUMBERS) as usize) {
        return n;
    }
    form_name(out, n, x)
}

// Puts `+` and the name of each of the d Sets in dispute that is a member of g.
fn put_lone_names(out: &mut [u8], n: usize, disputes: &[u64], d: usize, g: u64) -> usize
    requires { (d ≤ length disputes.now)
        × (d ≤ most_sets)
        × (n + d * (1 + dotted_length) ≤ length out.old) }
    ensures { (take result out.new ≡ take n out.old
        ++ flat_map (λ y. plus ∷ name_text y) (identifier_by (take d disputes.now) g))
        × (result ≤ n + d * (1 + dotted_length)) }
{
    let mut w = n;
    for &x in &disputes[..d] {
        w = put_lone_name(out, w, x, g);
    }
    w
}

// Puts a space and the identifier of the group g, by the d Sets in dispute: the names with a space in the place of the
// first `+`.
fn put_lone_identifier(out: &mut [u8], n: usize, disputes: &[u64], d: usize, g: u64) -> usize
    requires { (d ≤ length disputes.now)
        × (d ≤ most_sets)
        × (n + identifier_length ≤ length out.old) }
    ensures { (take result out.new ≡ take n out.old
        ++ (space ∷ identifier_text (identifier_by (take d disputes.now) g)))
        × (result ≤ n + identifier_length) }
{
    let w = put_lone_names(out, n, disputes, d, g);
    if w == n {
        let k = put_byte(out, n, SPACE);
        return put_byte(out, k, MINUS);
    }
    out[n] = SPACE;
    w
}

// Puts ` key=value` by the stamp s, or nothing if it is 0.
fn put_lone_setting(out: &mut [u8], n: usize, key: usize, s: u64) -> usize
    requires { (key < keys) × (n + (1 + equated_length) ≤ length out.old) }
    ensures { (take result out.new ≡ take n out.old ++ stamp_text key s)
        × (result ≤ n + (1 + equated_length)) }
{
    if s == 0 {
        return n;
    }
    form_setting(out, n, key as u8, s)
}

// Puts ` key=value` for each key that a member of g sets, ascending, by the stamps of the t Sets and what is noted of
// their keys.
fn put_lone_settings(
    out: &mut [u8],
    n: usize,
    stamps: &[u64],
    t: usize,
    keyed: &[u64],
    peaks: u64,
    g: u64,
) -> usize
    requires { (n + settings_length ≤ length out.old)
        × (t ≤ length stamps.now)
        × (t ≤ most_sets)
        × (keys ≤ length keyed.now)
        × KeyedBy stamps.now keyed.now peaks t }
    ensures { (take result out.new
        ≡ take n out.old ++ settings_by (take t stamps.now) g keys)
        × (result ≤ n + settings_length) }
{
    let mut w = n;
    for k in 0..ALL_KEYS {
        let s = last_of(stamps, t, keyed, peaks, g, k);
        w = put_lone_setting(out, w, k, s);
    }
    w
}

// Puts at the front the line of the version g of the object whose Create is site.seq, by the d Sets in dispute, the
// stamps of the t Sets and what is noted of their keys; says how many bytes it has.
pub fn put_lone_line(
    out: &mut [u8],
    site: u8,
    seq: u16,
    disputes: &[u64],
    d: usize,
    stamps: &[u64],
    t: usize,
    keyed: &[u64],
    peaks: u64,
    g: u64,
) -> usize
    requires { (d ≤ length disputes.now)
        × (d ≤ most_sets)
        × (line_length ≤ length out.old)
        × (t ≤ length stamps.now)
        × (t ≤ most_sets)
        × (keys ≤ length keyed.now)
        × KeyedBy stamps.now keyed.now peaks t }
    ensures { (take result out.new
        ≡ line_by site seq (take d disputes.now) (take t stamps.now) g)
        × (result ≤ line_length) }
{
    let a = put_dotted(out, 0, site, seq);
    let b = put_lone_identifier(out, a, disputes, d, g);
    let w = put_lone_settings(out, b, stamps, t, keyed, peaks, g);
    put_byte(out, w, NEWLINE)
}

// The same of the version v of what is gathered of an object.
pub fn put_lone_line_of(out: &mut [u8], g: &Workspace, v: u64) -> usize
    requires { line_length ≤ length out.old }
    ensures { (take result out.new ≡ line_in g.now v) × (result ≤ line_length) }
{
    put_lone_line(
        out,
        g.site,
        g.seq,
        &g.disputes,
        g.disputed,
        &g.stamps,
        g.sets,
        &g.keyed,
        g.peaks,
        v,
    )
}
