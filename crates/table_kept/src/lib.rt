// What is judged of an arriving edit where records are taken one after another: the rows of the last box that had a
// limited Set are kept, with the names of its Sets, so that the next Set of that box finds them as it needs them. For
// another box they are worked out anew.
#![tactic(auto)]

pub mod chained;

ghost use Rattle.std.specs.Prelude.{◌≡◌, true, ◌&&◌, ◌||◌, cond, List, [], ◌∷◌, ◌++◌, map, ℕ, ◌+◌, eqb, ltb, length, get_or, is_some};
ghost use Rattle.math_lists.specs.SortedLists.{any};
ghost use Rattle.edit_record.specs.Layout.{set_kind, limited_kind};
ghost use Rattle.edit_record.specs.declared.Edit.{Edit};
ghost use Rattle.edit_record.specs.RecordBytes.{decode_of};
ghost use Rattle.edit_history.specs.EditsHeld.{record_at, edits_of, is_target, sets_on};
ghost use Rattle.edit_history.specs.SurveyForms.{survey_of, SurveyedOf};
ghost use Rattle.group_step.specs.GroupRows.{most_sets};
ghost use Rattle.group_limited.specs.LimitedForms.{JudgedWhere};
ghost use Rattle.group_kept.specs.KeptForms.{rows_length};
ghost use Rattle.table_index.specs.IndexForms.{places_on};
ghost use Rattle.table_kept.specs.ChainForms.{ChainsOn, IndexedIn};
ghost use Rattle.table_kept.specs.BoxForms.{box_site_at, box_seq_at, told_at, kept_length, boxed, TellOf, KeptFor};

use edit_history::{Held, Surveyed};
use edit_record::{AT_KIND, AT_TARGET, AT_TARGET_SEQ, LIMITED, Seq, Site};
use group_kept::ROWS;
use group_limited::Judged;
use group_sight::put_names;
use group_step::SETS;
use table_index::Index;

// Behind the names of the Sets: the site and the sequence number of their box, and how many of its Sets are told of.
const BOX_SITE: usize = SETS;

const BOX_SEQ: usize = SETS + 1;

const COUNT: usize = SETS + 2;

pub const NAMES: usize = SETS + 3;

// What is kept: the rows, and the names with what is behind them.
#[derive(Drop)]
pub struct Kept {
    pub rows: [u64; ROWS],
    pub names: [u32; NAMES],
}

impl Kept {
    // What is kept of no box.
    pub fn none() -> Kept
        ensures { KeptFor [] result.names result.rows }
    {
        // zeros in both: then it is made where it is to stand, and not first elsewhere, which would take stack twice
        Kept {
            rows: [0u64; ROWS],
            names: [0u32; NAMES],
        }
    }

    // Puts down that it is told of no Set.
    pub fn forget(&mut self)
        ensures { (es : List Edit) → KeptFor es self.new.names self.new.rows }
    {
        forget(&mut self.names);
    }

    // What is judged of an arriving record with its survey v, where the first n records are held, and what is kept with
    // it.
    pub fn judge(&mut self, ix: &Index, recs: &[u8], n: usize, rec: &[u8], v: Surveyed) -> Judged
        requires { IndexedIn recs.now n ix.now.places ix.now.numbers ix.now.chains
            × SurveyedOf (edits_of recs.now n) (decode_of rec.now) v
            × KeptFor (edits_of recs.now n) self.old.names self.old.rows }
        ensures { JudgedWhere (is_some v.held)
            (sets_on (decode_of rec.now).tsite (decode_of rec.now).tseq
            (edits_of recs.now n))
            (decode_of rec.now) result
            × KeptFor (edits_of recs.now n ++ (decode_of rec.now ∷ [])) self.new.names self.new.rows }
    {
        judge(
            &mut self.rows,
            &mut self.names,
            recs,
            n,
            &ix.places,
            &ix.numbers,
            &ix.chains,
            rec,
            v,
        )
    }
}

// Whether what is kept tells of the first k Sets of the box s.q.
fn is_kept(names: &[u32], s: Site, q: Seq, k: u32) -> bool
    requires { length names.now ≡ kept_length }
    ensures { result
        ≡ (eqb (get_or names.now box_site_at 0) s.0
        && eqb (get_or names.now box_seq_at 0) q.0
        && eqb (get_or names.now told_at 0) k) }
{
    (names[BOX_SITE] == s.0 as u32) & (names[BOX_SEQ] == q.0 as u32) & (names[COUNT] == k)
}

// Works out the names and the rows of the k Sets, among the first n records, on the Create in place q.
fn put_anew(
    rows: &mut [u64],
    names: &mut [u32],
    recs: &[u8],
    n: usize,
    numbers: &[u8],
    chains: &[u8],
    q: usize,
    k: usize,
)
    requires { ChainsOn recs.now n numbers.now chains.now q
        × (k ≡ length (places_on recs.now n q))
        × (length names.old ≡ kept_length)
        × (length rows.old ≡ rows_length) }
    ensures { TellOf (map (record_at recs.now) (places_on recs.now n q))
        names.new rows.new }
{
    // what work space holds at first does not matter; zeros would be set by memset (docs/DECISIONS.md, 24)
    let mut spots = [1u16; SETS];
    chained::put_chains(&mut spots, recs, n, numbers, chains, q);
    put_names(names, recs, &spots, k);
    group_kept::put_rows(rows, recs, &spots, names, k);
}

// Sees to it that the names and the rows tell of the k Sets, among the first n records, of the box that rec targets and
// that is held.
fn make_ready(
    rows: &mut [u64],
    names: &mut [u32],
    recs: &[u8],
    n: usize,
    places: &[u16],
    numbers: &[u8],
    chains: &[u8],
    rec: &[u8],
    k: usize,
)
    requires { IndexedIn recs.now n places.now numbers.now chains.now
        × (any (is_target (decode_of rec.now)) (edits_of recs.now n) ≡ true)
        × (k ≡ length (sets_on (decode_of rec.now).tsite (decode_of rec.now).tseq (edits_of recs.now n)))
        × KeptFor (edits_of recs.now n) names.old rows.old }
    ensures { TellOf
        (sets_on (decode_of rec.now).tsite (decode_of rec.now).tseq
        (edits_of recs.now n))
        names.new rows.new }
{
    let s = Site(edit_record::byte_at(rec, AT_TARGET));
    let q = Seq(edit_record::two_at(rec, AT_TARGET_SEQ));
    if !is_kept(names, s, q, k as u32) {
        let at = edit_walk::place_at(places, s, q) as usize;
        put_anew(rows, names, recs, n, numbers, chains, at, k);
    }
}

// Of how many Sets it is told after an edit of this kind that was put down behind k Sets of its box: of none, where
// there was no room for it or it is no Set.
fn told_after(k: usize, kind: u8) -> u32
    ensures { result ≡ cond (ltb k most_sets && (eqb kind set_kind || eqb kind limited_kind)) (k + 1) 0 }
{
    if (k < SETS) & edit_record::is_set_kind(kind) {
        return k as u32 + 1;
    }
    0
}

// Puts down that it is told of k Sets of the box that rec targets.
fn put_box(names: &mut [u32], rec: &[u8], k: u32)
    requires { length names.old ≡ kept_length }
    ensures { names.new ≡ boxed names.old (decode_of rec.now) k }
{
    names[BOX_SITE] = edit_record::byte_at(rec, AT_TARGET) as u32;
    names[BOX_SEQ] = edit_record::two_at(rec, AT_TARGET_SEQ) as u32;
    names[COUNT] = k;
}

// Puts down that it is told of no Set.
pub fn forget(names: &mut [u32])
    requires { length names.old ≡ kept_length }
    ensures { (es : List Edit) (rows : List ℕ) → length rows ≡ rows_length →
        KeptFor es names.new rows }
{
    names[COUNT] = 0;
}

// What is judged, by the rows of its box, of a record whose target is held among the first n.
fn judge_by_rows(
    rows: &mut [u64],
    names: &mut [u32],
    recs: &[u8],
    n: usize,
    places: &[u16],
    numbers: &[u8],
    chains: &[u8],
    rec: &[u8],
    h: Held,
) -> Judged
    requires { IndexedIn recs.now n places.now numbers.now chains.now
        × (any (is_target (decode_of rec.now)) (edits_of recs.now n) ≡ true)
        × (h ≡ survey_of (edits_of recs.now n) (decode_of rec.now))
        × KeptFor (edits_of recs.now n) names.old rows.old }
    ensures { JudgedWhere true
        (sets_on (decode_of rec.now).tsite (decode_of rec.now).tseq
        (edits_of recs.now n))
        (decode_of rec.now) result
        × KeptFor (edits_of recs.now n ++ (decode_of rec.now ∷ [])) names.new
        rows.new }
{
    let k = h.sets;
    make_ready(rows, names, recs, n, places, numbers, chains, rec, k);
    let j = group_kept::judge(rows, names, k, rec, h.plain);
    let told = told_after(k, edit_record::byte_at(rec, AT_KIND));
    put_box(names, rec, told);
    j
}

// What is judged of an arriving record with its survey v, where the first n records are held, and what is kept with it.
// Where no Set of its object is limited, and it is not, document 01's conflicts are all that there are. One whose
// object is not held is not judged.
pub fn judge(
    rows: &mut [u64],
    names: &mut [u32],
    recs: &[u8],
    n: usize,
    places: &[u16],
    numbers: &[u8],
    chains: &[u8],
    rec: &[u8],
    v: Surveyed,
) -> Judged
    requires { IndexedIn recs.now n places.now numbers.now chains.now
        × SurveyedOf (edits_of recs.now n) (decode_of rec.now) v
        × KeptFor (edits_of recs.now n) names.old rows.old }
    ensures { JudgedWhere (is_some v.held)
        (sets_on (decode_of rec.now).tsite (decode_of rec.now).tseq
        (edits_of recs.now n))
        (decode_of rec.now) result
        × KeptFor (edits_of recs.now n ++ (decode_of rec.now ∷ [])) names.new
        rows.new }
{
    let Some(h) = v.held else {
        return Judged {
            nameless: false,
            conflicts: 0,
        };
    };
    let limited = edit_record::byte_at(rec, AT_KIND) == LIMITED;
    if !(limited | h.limited) {
        return Judged {
            nameless: false,
            conflicts: h.plain,
        };
    }
    judge_by_rows(rows, names, recs, n, places, numbers, chains, rec, h)
}
