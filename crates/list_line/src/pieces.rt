// Pieces of lines that are kept from line to line, since the lines of an object have most of them in common: a setting
// of each key, and the names of the Sets in dispute. The names are formed once for all lines of the object; a setting
// is formed anew only where the last one in its place was told by another number. A piece is copied whole, with what
// stands behind it: that is written over next.
ghost use Rattle.std.specs.Prelude.{◌≡◌, not, ◌&&◌, cond, List, [], ◌∷◌, ◌++◌, ℕ, ◌+◌, ◌*◌, ◌≤◌, ◌<◌, eqb, length, take, get_or};
ghost use Rattle.edit_record.specs.Layout.{keys};
ghost use Rattle.group_step.specs.GroupRows.{most_sets};
ghost use Rattle.list_text.specs.Pieces.{plus, dotted_length, equated_length};
ghost use Rattle.list_line.specs.Line.{name_text};
ghost use Rattle.list_version.specs.VersionForms.{name_by, is_in};
ghost use Rattle.list_line.specs.LineForms.{piece_length, pieces, stamp_text, piece_at, Kept};
ghost use Rattle.list_line.specs.LineForms.{NameIn, NamesKept, NameMore, SameNames};

use super::{put_member, put_setting};
use edit_causal::shown;
use edit_record::VALUES;
use group_step::SETS;
use list_text::{PLUS, SPACE, put_byte, put_dotted, put_equated};
use list_version::{ALL_KEYS, NUMBERS, SEQ_NUMBERS, SITE_NUMBERS};
use table_output::copy_in;

// The bytes of the place of a piece, and how many places there are: one for each key, then one for each Set.
pub const PIECE: usize = 16;

pub const PIECES: usize = ALL_KEYS + SETS;

// Forms ` key=value` by the stamp s behind the first n bytes.
pub fn form_setting(text: &mut [u8], n: usize, key: u8, s: u64) -> usize
    requires { (key < keys) × (0 < s) × (n + (1 + equated_length) ≤ length text.old) }
    ensures { (take result text.new ≡ take n text.old ++ stamp_text key s)
        × (result ≤ n + (1 + equated_length)) }
{
    let w = put_byte(text, n, SPACE);
    put_equated(text, w, key, shown(key, ((s - 1) % VALUES) as u32))
}

// Forms `+` and the name of the Set in dispute x behind the first n bytes.
pub fn form_name(text: &mut [u8], n: usize, x: u64) -> usize
    requires { n + (1 + dotted_length) ≤ length text.old }
    ensures { (take result text.new ≡ take n text.old ++ (plus ∷ name_text (name_by x)))
        × (result ≤ n + (1 + dotted_length)) }
{
    let name = x / NUMBERS;
    let w = put_byte(text, n, PLUS);
    put_dotted(
        text,
        w,
        (name / SEQ_NUMBERS % SITE_NUMBERS) as u8,
        (name % SEQ_NUMBERS) as u16,
    )
}

// Whether the setting in place j is the one that v tells.
pub fn is_kept(lens: &[u8], told: &[u64], j: usize, v: u64) -> bool
    requires { (j < length lens.now) × (j < length told.now) }
    ensures { result ≡ (not (eqb (get_or lens.now j 0) 0) && eqb (get_or told.now j 0) v) }
{
    (lens[j] != 0) & (told[j] == v)
}

// Forms the setting of the key j by the stamp v in its place.
fn renew(texts: &mut [u8], lens: &mut [u8], told: &mut [u64], j: usize, v: u64)
    requires { (j < keys) × (0 < v) × Kept texts.old lens.old told.old }
    ensures { Kept texts.new lens.new told.new
        × (piece_at texts.new lens.new j ≡ stamp_text j v)
        × SameNames texts.old lens.old texts.new lens.new }
{
    let at = j * PIECE;
    let end = at + PIECE;
    let n = form_setting(&mut texts[at..end], 0, j as u8, v);
    lens[j] = n as u8;
    told[j] = v;
}

// Forms the name of the i-th Set in dispute, x, in its place.
fn put_name(texts: &mut [u8], lens: &mut [u8], i: usize, x: u64)
    requires { (i < most_sets)
        × (length texts.old ≡ pieces * piece_length)
        × (length lens.old ≡ pieces) }
    ensures { NameMore texts.old lens.old i x texts.new lens.new }
{
    let j = ALL_KEYS + i;
    let at = j * PIECE;
    let end = at + PIECE;
    let n = form_name(&mut texts[at..end], 0, x);
    lens[j] = n as u8;
}

// Forms the names of the d Sets in dispute, each in its place.
pub fn put_names(texts: &mut [u8], lens: &mut [u8], disputes: &[u64], d: usize)
    requires { (d ≤ length disputes.now)
        × (d ≤ most_sets)
        × (length texts.old ≡ pieces * piece_length)
        × (length lens.old ≡ pieces) }
    ensures { (told : List ℕ) → Kept texts.old lens.old told →
        Kept texts.new lens.new told
        × NamesKept texts.new lens.new (take d disputes.now) }
{
    for (i, &x) in disputes[..d].iter().enumerate() {
        put_name(texts, lens, i, x);
    }
}

// Puts the piece that stands in place j behind the first n bytes, and what is behind it in its place.
pub fn put_piece(out: &mut [u8], n: usize, texts: &[u8], lens: &[u8], j: usize) -> usize
    requires { (j < pieces)
        × (length texts.now ≡ pieces * piece_length)
        × (length lens.now ≡ pieces)
        × (get_or lens.now j 0 ≤ piece_length)
        × (n + piece_length ≤ length out.old) }
    ensures { (take result out.new
        ≡ take n out.old ++ piece_at texts.now lens.now j)
        × (result ≡ n + get_or lens.now j 0) }
{
    let at = j * PIECE;
    let end = at + PIECE;
    copy_in(&mut out[n..], &texts[at..end], PIECE);
    n + lens[j] as usize
}

// Forms the setting of the key j by the stamp v in its place, and puts it behind the first n bytes.
pub fn put_anew(
    out: &mut [u8],
    n: usize,
    texts: &mut [u8],
    lens: &mut [u8],
    told: &mut [u64],
    j: usize,
    v: u64,
) -> usize
    requires { (j < keys)
        × (0 < v)
        × (n + piece_length ≤ length out.old)
        × Kept texts.old lens.old told.old }
    ensures { (take result out.new ≡ take n out.old ++ stamp_text j v)
        × (result ≤ n + (1 + equated_length))
        × Kept texts.new lens.new told.new
        × SameNames texts.old lens.old texts.new lens.new }
{
    renew(texts, lens, told, j, v);
    put_piece(out, n, texts, lens, j)
}

// The pieces, each in its place: their texts, how many bytes each has, and the stamps that told those of the keys. What
// stands in the place of a key is always the setting that its stamp tells, or nothing.
#[derive(Drop)]
pub struct Pieces {
    pub texts: [u8; PIECES * PIECE],
    pub lens: [u8; PIECES],
    pub told: [u64; ALL_KEYS],
    pub ghost kept: { Kept texts lens told },
}

impl Pieces {
    // No piece is kept yet. Zeros in all: then it is made where it is to stand, and not first elsewhere, which would take
    // stack twice.
    pub fn none() -> Pieces {
        Pieces {
            texts: [0; PIECES * PIECE],
            lens: [0; PIECES],
            told: [0; ALL_KEYS],
        }
    }

    // Forms the names of the d Sets in dispute, each in its place.
    pub fn put_names(&mut self, disputes: &[u64], d: usize)
        requires { (d ≤ length disputes.now) × (d ≤ most_sets) }
        ensures { NamesKept self.new.texts self.new.lens (take d disputes.now) }
    {
        put_names(&mut self.texts, &mut self.lens, disputes, d);
    }

    // Puts `+` and the name of the i-th Set in dispute, x, if that is a member of g.
    pub fn put_member(&self, out: &mut [u8], n: usize, i: usize, x: u64, g: u64) -> usize
        requires { (i < most_sets)
            × (n + piece_length ≤ length out.old)
            × NameIn self.now.texts self.now.lens i x }
        ensures { (take result out.new
            ≡ take n out.old ++ cond (is_in g x) (plus ∷ name_text (name_by x)) [])
            × (result ≤ n + (1 + dotted_length)) }
    {
        put_member(out, n, &self.texts, &self.lens, i, x, g)
    }

    // Puts ` key=value` by the stamp s, or nothing if it is 0.
    pub fn put_setting(&mut self, out: &mut [u8], n: usize, key: usize, s: u64) -> usize
        requires { (key < keys) × (n + piece_length ≤ length out.old) }
        ensures { (take result out.new ≡ take n out.old ++ stamp_text key s)
            × (result ≤ n + (1 + equated_length))
            × SameNames self.old.texts self.old.lens self.new.texts self.new.lens }
    {
        let (texts, lens, told) = (&mut self.texts, &mut self.lens, &mut self.told);
        put_setting(out, n, texts, lens, told, key, s)
    }
}
