// The causal tests of document 01: before, concurrent, conflict; the values that conflict compares; and the sum by
// which the total order goes first. Each answers what the definition says for every edit, well formed or not.
#![tactic(auto)]

ghost use Rattle.std.specs.Prelude.{◌≡◌, ◌≤◌, length};
ghost use Rattle.edit_record.specs.Layout.{record_length};
ghost use Rattle.edit_record.specs.RecordBytes.{decode_of};
ghost use Rattle.edit_causal.specs.Causal.{same_edit, has_seen, comes_before, are_concurrent};
ghost use Rattle.edit_causal.specs.Conflict.{do_conflict};
ghost use Rattle.edit_causal.specs.ConflictForms.{on_one};
ghost use Rattle.edit_causal.specs.ShownValue.{shown_value};
ghost use Rattle.edit_causal.specs.TotalOrder.{vector_sum};

use edit_record::{
    AT_KEY, AT_KIND, AT_SEQ, AT_SITE, AT_TARGET, AT_TARGET_SEQ, Edit, SITES, Seq, Site,
};

// Whether s.q and t.p are one edit.
pub fn is_same(s: Site, q: Seq, t: Site, p: Seq) -> bool
    ensures { result ≡ same_edit s q t p }
{
    (s == t) & (q == p)
}

// Whether the author of the vector v had applied the edit s.q.
pub fn has_seen(v: [u16; SITES], s: Site, q: Seq) -> bool
    ensures { result ≡ has_seen v s q }
{
    q.0 <= edit_record::entry(v, s).0
}

// Whether a comes before b.
pub fn is_before(a: Edit, b: Edit) -> bool
    ensures { result ≡ comes_before a b }
{
    let v = b.vector;
    !is_same(a.site, a.seq, b.site, b.seq) & has_seen(v, a.site, a.seq)
}

// Whether a and b differ and neither comes before the other.
pub fn is_concurrent(a: Edit, b: Edit) -> bool
    ensures { result ≡ are_concurrent a b }
{
    !is_same(a.site, a.seq, b.site, b.seq) & !is_before(a, b) & !is_before(b, a)
}

// The side of a square of the grid, on which the keys 0 and 1 place a box.
const SQUARE: u32 = 8;

// The keys that are squares are the numbers below this one.
const SQUARE_KEYS: u8 = 2;

// The value of a key as it is compared and shown.
pub fn shown(key: u8, value: u32) -> u32
    ensures { result ≡ shown_value key value }
{
    if key < SQUARE_KEYS {
        return value / SQUARE * SQUARE;
    }
    value
}

// Whether a and b are two Sets that conflict.
pub fn is_conflict(a: Edit, b: Edit) -> bool
    ensures { result ≡ do_conflict a b }
{
    edit_record::is_set_kind(a.kind)
        & edit_record::is_set_kind(b.kind)
        & is_concurrent(a, b)
        & is_same(a.tsite, a.tseq, b.tsite, b.tseq)
        & (a.key == b.key)
        & (shown(a.key, a.value) != shown(b.key, b.value))
}

// Whether the edits of two records that are there whole are concurrent; their fields are read where they stand.
fn is_concurrent_in(a: &[u8], b: &[u8]) -> bool
    requires { (record_length ≤ length a.now) × (record_length ≤ length b.now) }
    ensures { result ≡ are_concurrent (decode_of a.now) (decode_of b.now) }
{
    let s = a[AT_SITE];
    let t = b[AT_SITE];
    let q = edit_record::pair_at(a, AT_SEQ);
    let p = edit_record::pair_at(b, AT_SEQ);
    let seen = edit_record::own_entry(b, s);
    let back = edit_record::own_entry(a, t);
    let same = is_same(Site(s), Seq(q), Site(t), Seq(p));
    let turned = is_same(Site(t), Seq(p), Site(s), Seq(q));
    !same & !(!same & (q <= seen)) & !(!turned & (p <= back))
}

// Whether two records that are there whole are Sets on one object.
fn are_sets_on_one(a: &[u8], b: &[u8]) -> bool
    requires { (record_length ≤ length a.now) × (record_length ≤ length b.now) }
    ensures { result ≡ on_one (decode_of a.now) (decode_of b.now) }
{
    let q = edit_record::pair_at(a, AT_TARGET_SEQ);
    let p = edit_record::pair_at(b, AT_TARGET_SEQ);
    edit_record::is_set_kind(a[AT_KIND])
        & edit_record::is_set_kind(b[AT_KIND])
        & is_same(Site(a[AT_TARGET]), Seq(q), Site(b[AT_TARGET]), Seq(p))
}

// Whether two records that are there whole are two Sets that conflict. Most are told by their keys.
pub fn is_conflict_in(a: &[u8], b: &[u8]) -> bool
    requires { (record_length ≤ length a.now) × (record_length ≤ length b.now) }
    ensures { result ≡ do_conflict (decode_of a.now) (decode_of b.now) }
{
    let key = a[AT_KEY];
    if key != b[AT_KEY] {
        return false;
    }
    let x = shown(key, edit_record::value_of(a));
    let y = shown(key, edit_record::value_of(b));
    are_sets_on_one(a, b) & is_concurrent_in(a, b) & (x != y)
}

// The sum of a vector's entries. A sum of entries of two bytes does not wrap.
pub fn vector_sum(v: [u16; SITES]) -> u32
    ensures { result ≡ vector_sum v }
{
    let mut total: u32 = 0;
    for x in v {
        total += x as u32;
    }
    total
}
