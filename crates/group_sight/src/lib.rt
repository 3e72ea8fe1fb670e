// One Set against those before it, by the places of their records: which of them conflict with it by document 01's
// rule, which its author had seen and which it lists, and whether it lists a name that is that of none which he had
// seen. The names of those before it are put down once for all of them.
#![tactic(auto)]

pub mod seen;

ghost use Rattle.std.specs.Prelude.{◌≡◌, true, List, ℕ, ◌^◌, ◌≤◌, ◌<◌, length, take, get_or};
ghost use Rattle.math_lists.specs.NumbersBelow.{mask};
ghost use Rattle.math_lists.specs.SortedLists.{any, elem};
ghost use Rattle.edit_record.specs.declared.Edit.{Edit};
ghost use Rattle.edit_record.specs.Layout.{most_members, count_at};
ghost use Rattle.edit_record.specs.RecordBytes.{two, decode_of};
ghost use Rattle.edit_record.specs.Answer1.{is_limited};
ghost use Rattle.edit_causal.specs.Conflict.{listed_by};
ghost use Rattle.edit_history.specs.EditsHeld.{record_at};
ghost use Rattle.edit_history.specs.Answer16.{is_strange};
ghost use Rattle.group_step.specs.GroupRows.{most_sets};
ghost use Rattle.group_sight.specs.SightForms.{sets_in, most_recent, seen_marks, named_marks, marks_on};
ghost use Rattle.group_sight.specs.SightForms.{NameOf, NamesOf, NamesIn, SightedTo, sum_of_name};
ghost use Rattle.group_sight.specs.SightForms.{marks_of_name, is_unseen};

use edit_history::marked_if;
use edit_record::{
    AT_COUNT, AT_KIND, AT_MEMBERS, AT_SEQ, AT_SITE, LIMITED, MEMBER, MEMBERS, PLACE, RECORD,
    SEQ_NUMBERS, SITES,
};

// Of so many Sets of an object, the last ones, it is kept what their authors had seen.
pub const RECENT: usize = 16;

// What is asked of each of the Sets before a Set: bit i of `plain` says that the i-th conflicts with it by document
// 01's rule, and of `seen` that its author had seen the i-th.
#[derive(Clone, Copy)]
pub struct Marks {
    pub plain: u64,
    pub seen: u64,
}

// What of a Set is held against those that its author had not seen: whether it is one, its name, its target and its key
// as one number, and its value as it is compared.
#[derive(Clone, Copy)]
pub struct Side {
    pub set: bool,
    pub name: u32,
    pub aim: u32,
    pub shown: u32,
}

// The Sets before a Set that it lists, and whether it lists a name that is that of none which its author had seen.
#[derive(Clone, Copy)]
pub struct NamedBefore {
    pub named: u64,
    pub strange: bool,
}

// The vector of the edit of rec.
pub fn vector_in(rec: &[u8]) -> [u16; SITES]
    ensures { result ≡ (decode_of rec.now).vector }
{
    if RECORD <= rec.len() {
        return edit_record::vector_of(rec);
    }
    let e = edit_record::decode(rec);
    e.vector
}

// The name of the edit in place p, read where it stands.
fn name_at(recs: &[u8], p: u16) -> u32
    ensures { NameOf result (record_at recs.now p) }
{
    let at = p as usize * PLACE;
    let site = edit_record::byte_at(recs, at + AT_SITE);
    let seq = edit_record::two_at(recs, at + AT_SEQ);
    site as u32 * SEQ_NUMBERS + seq as u32
}

// The name of the edit of rec.
pub fn name_of(rec: &[u8]) -> u32
    ensures { NameOf result (decode_of rec.now) }
{
    name_at(rec, 0)
}

// Puts down the names of the edits in the k first places.
pub fn put_names(names: &mut [u32], recs: &[u8], places: &[u16], k: usize)
    requires { (k ≤ length names.old) × (k ≤ length places.now) }
    ensures { NamesIn recs.now places.now k names.new }
{
    for i in 0..k {
        names[i] = name_at(recs, places[i]);
    }
}

// The marks of the Sets in the k first places, which stand before that of rec; these are their names, and `sees` has
// what the author of each had seen. Only one that was not seen is held against that of rec.
pub fn marks_of(
    recs: &[u8],
    places: &[u16],
    names: &[u32],
    sees: &[u64],
    k: usize,
    rec: &[u8],
) -> Marks
    requires { (k ≤ most_sets)
        × (k ≤ length places.now)
        × (k ≤ length names.now)
        × (most_recent ≤ length sees.now)
        × NamesIn recs.now places.now k names.now }
    ensures { (result.plain < 2 ^ k) × SightedTo (sets_in recs.now places.now k)
        (decode_of rec.now) sees.now
        (result ≡ marks_on (decode_of rec.now) (sets_in recs.now places.now k)) }
{
    let v = vector_in(rec);
    let own = name_of(rec);
    let seen = seen::seen_of(names, sees, k, own, &v);
    let all = seen::first(k);
    let others = group_step::without(all, seen);
    let side = seen::side_of(rec, own);
    let plain = seen::foes_among(recs, places, names, others, side);
    Marks { plain, seen }
}

// What the place of a name that is found counts beside its number: more than all numbers of places in one.
const FOUND: u32 = 65536;

// The places of those of the k first names that are x, as one number.
fn sum_of_name(names: &[u32], k: usize, x: u32) -> u32
    requires { (k ≤ most_sets) × (k ≤ length names.now) }
    ensures { result ≡ sum_of_name names.now k x }
{
    let mut t: u32 = 0;
    for (i, &name) in names[..k].iter().enumerate() {
        if name == x {
            t += FOUND + i as u32;
        }
    }
    t
}

// Those of the k first names that are x, bit i for the i-th.
fn marks_one_by_one(names: &[u32], k: usize, x: u32) -> u64
    requires { (k ≤ most_sets) × (k ≤ length names.now) }
    ensures { result ≡ marks_of_name names.now k x }
{
    let mut m: u64 = 0;
    for (i, &name) in names[..k].iter().enumerate() {
        m = marked_if(name == x, m, i);
    }
    m
}

// The same: the sum of their places tells which they are where they are one at most, and is worked out faster, the more
// so by whole eights of names; one past the k first does not count.
fn marks_of_name(names: &[u32], k: usize, x: u32) -> u64
    requires { (k ≤ most_sets) × (k ≤ length names.now) }
    ensures { result ≡ marks_of_name names.now k x }
{
    let m = (k + 7) / 8 * 8;
    if names.len() < m {
        return marks_one_by_one(names, k, x);
    }
    let t = sum_of_name(names, m, x);
    if t == 0 {
        return 0;
    }
    if t < 2 * FOUND {
        let p = (t - FOUND) as usize;
        if k <= p {
            return 0;
        }
        return group_step::only(p);
    }
    marks_one_by_one(names, k, x)
}

// How many of the members are listed, where the count says so many.
fn listed(count: u32) -> usize
    ensures { (result ≤ most_members)
        × ((xs : List ℕ) → length xs ≡ most_members → take result xs ≡ take count xs) }
{
    MEMBERS.min(count as usize)
}

// Member i of a limited Set, read where it stands: there are as many as the first two bytes of the count say.
fn member_of(rec: &[u8], count: u16, i: usize) -> u32
    requires { (is_limited (decode_of rec.now) ≡ true)
        × (i < most_members)
        × (count ≡ two rec.now count_at) }
    ensures { result ≡ get_or (decode_of rec.now).members i 0 }
{
    if count as usize <= i {
        return 0;
    }
    edit_record::four_at(rec, AT_MEMBERS + MEMBER * i)
}

// Of the k first names those that a limited Set lists, and whether it lists one that is that of none of the members of
// `seen`.
pub fn listed_among(names: &[u32], k: usize, seen: u64, rec: &[u8]) -> NamedBefore
    requires { (k ≤ most_sets) × (k ≤ length names.now) × (is_limited (decode_of rec.now) ≡ true) }
    ensures { (result.named ≡ mask k (λ i. elem (get_or names.now i 0) (listed_by (decode_of rec.now))))
        × (result.strange
        ≡ any (is_unseen names.now k seen) (listed_by (decode_of rec.now))) }
{
    let n = listed(edit_record::four_at(rec, AT_COUNT));
    let count = edit_record::two_at(rec, AT_COUNT);
    let mut named: u64 = 0;
    let mut strange = false;
    for i in 0..n {
        let m = marks_of_name(names, k, edit_record::name_in(member_of(rec, count, i)));
        named |= m;
        strange |= m & seen == 0;
    }
    NamedBefore { named, strange }
}

// Which of the k Sets with these names that of rec lists, where its author had seen the members of `seen`. A Set that
// is not limited lists none.
pub fn list_of(names: &[u32], k: usize, seen: u64, rec: &[u8]) -> NamedBefore
    requires { (k ≤ most_sets) × (k ≤ length names.now) }
    ensures { (ms : List Edit) → length ms ≡ k → NamesOf names.now ms →
        seen ≡ seen_marks (decode_of rec.now) ms →
        (result.named ≡ named_marks (decode_of rec.now) ms)
        × (is_limited (decode_of rec.now) ≡ true → result.strange
        ≡ any (is_strange ms (decode_of rec.now)) (listed_by (decode_of rec.now))) }
{
    if edit_record::byte_at(rec, AT_KIND) != LIMITED {
        return NamedBefore {
            named: 0,
            strange: false,
        };
    }
    listed_among(names, k, seen, rec)
}
