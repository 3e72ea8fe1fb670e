// Which of the Sets before a Set its author had seen, by their names and by what the authors of those had seen, and
// which of the others conflict with it by document 01's rule. Only a Set that was not seen is held against it. The
// records are read where they stand; an edit is decoded only where a record is not there whole.
ghost use Rattle.std.specs.Prelude.{◌≡◌, true, ◌&&◌, List, [], ◌∷◌, ◌++◌, ℕ, suc, ◌/◌, ◌%◌, ◌^◌, ◌≤◌, ◌<◌, length, get_or};
ghost use Rattle.math_maximal.specs.Groups.{bit};
ghost use Rattle.math_contexts.specs.Box.{Lawful};
ghost use Rattle.edit_record.specs.Layout.{two_bytes, record_length};
ghost use Rattle.edit_record.specs.declared.Edit.{Edit};
ghost use Rattle.edit_record.specs.RecordBytes.{decode_of};
ghost use Rattle.edit_causal.specs.Causal.{comes_before};
ghost use Rattle.edit_causal.specs.Conflict.{box_on};
ghost use Rattle.edit_history.specs.EditsHeld.{record_at};
ghost use Rattle.group_step.specs.GroupRows.{most_sets};
ghost use Rattle.group_sight.specs.SightForms.{most_recent, seen_marks, NameOf, NamesOf, SideOf, is_foe};
ghost use Rattle.group_sight.specs.SightForms.{SeesTell, SeenBefore};

use super::{RECENT, Side};
use edit_causal::shown;
use edit_record::{
    AT_KEY, AT_KIND, AT_TARGET, AT_TARGET_SEQ, PLACE, RECORD, SEQ_NUMBERS, SITE_NUMBERS,
};

// Whether the edit with the name x comes before the one with the name y and the vector v.
fn is_seen(x: u32, y: u32, v: &[u16]) -> bool
    ensures { (a b : Edit) → NameOf x a → NameOf y b → b.vector ≡ v.now → result ≡ comes_before a b }
{
    let site = x / SEQ_NUMBERS % SITE_NUMBERS;
    let seq = (x % SEQ_NUMBERS) as u16;
    let seen = edit_record::entry_at(v, site as usize);
    (x != y) & (seq <= seen)
}

// The site of a target, a key and the sequence number of the target as one number.
fn aim_of(site: u8, key: u8, seq: u16) -> u32
    ensures { (result % 256 ≡ site) × (result / 256 % 256 ≡ key) × (result / two_bytes ≡ seq) }
{
    site as u32 + key as u32 * SITE_NUMBERS + seq as u32 * SEQ_NUMBERS
}

// The side of an edit with the name x, by its fields.
fn side_by(x: u32, kind: u8, site: u8, key: u8, seq: u16, value: u32) -> Side
    ensures { (e : Edit) → NameOf x e → e.kind ≡ kind → e.tsite.0 ≡ site → e.key ≡ key → e.tseq.0 ≡ seq →
        e.value ≡ value → SideOf result e }
{
    Side {
        set: edit_record::is_set_kind(kind),
        name: x,
        aim: aim_of(site, key, seq),
        shown: shown(key, value),
    }
}

// The side of the edit of rec, which has the name x.
pub fn side_of(rec: &[u8], x: u32) -> Side
    ensures { NameOf x (decode_of rec.now) → SideOf result (decode_of rec.now) }
{
    if RECORD <= rec.len() {
        let seq = edit_record::pair_at(rec, AT_TARGET_SEQ);
        let value = edit_record::value_of(rec);
        return side_by(x, rec[AT_KIND], rec[AT_TARGET], rec[AT_KEY], seq, value);
    }
    let e = edit_record::decode(rec);
    side_by(x, e.kind, e.tsite.0, e.key, e.tseq.0, e.value)
}

// Whether an edit with the name x is a foe of that with the side s, by its fields and by its entry for the site of s.
fn is_foe(x: u32, s: Side, seen: u16, kind: u8, site: u8, key: u8, seq: u16, value: u32) -> bool
    ensures { (a : Edit) → get_or a.vector (s.name / two_bytes % 256) 0 ≡ seen → a.kind ≡ kind → a.tsite.0 ≡ site →
        a.key ≡ key → a.tseq.0 ≡ seq → a.value ≡ value → result ≡ is_foe x s a }
{
    let own = (s.name % SEQ_NUMBERS) as u16;
    let aim = aim_of(site, key, seq);
    let y = shown(key, value);
    edit_record::is_set_kind(kind)
        & s.set
        & (x != s.name)
        & !(own <= seen)
        & (aim == s.aim)
        & (y != s.shown)
}

// The same of a record that is there whole.
fn is_foe_in(a: &[u8], x: u32, s: Side) -> bool
    requires { record_length ≤ length a.now }
    ensures { result ≡ is_foe x s (decode_of a.now) }
{
    let site = (s.name / SEQ_NUMBERS % SITE_NUMBERS) as u8;
    let seen = edit_record::own_entry(a, site);
    let seq = edit_record::pair_at(a, AT_TARGET_SEQ);
    let value = edit_record::value_of(a);
    is_foe(x, s, seen, a[AT_KIND], a[AT_TARGET], a[AT_KEY], seq, value)
}

// The same of the edit in place p.
fn is_foe_at(recs: &[u8], p: u16, x: u32, s: Side) -> bool
    ensures { result ≡ is_foe x s (record_at recs.now p) }
{
    let at = p as usize * PLACE;
    if at + RECORD <= recs.len() {
        return is_foe_in(&recs[at..], x, s);
    }
    let a = edit_history::decode_at(recs, p as usize);
    let v = a.vector;
    let site = s.name / SEQ_NUMBERS % SITE_NUMBERS;
    let seen = edit_record::entry_at(&v, site as usize);
    is_foe(x, s, seen, a.kind, a.tsite.0, a.key, a.tseq.0, a.value)
}

// The number of the first k Sets.
pub fn first(k: usize) -> u64
    requires { k ≤ most_sets }
    ensures { (result < 2 ^ k) × ((j : ℕ) → j < k → bit result j ≡ true) }
{
    if k == 0 {
        return 0;
    }
    let last = group_step::only(k - 1);
    last + (last - 1)
}

// Those of the Sets before Set i that its author had seen, if it is one of the last of the k first Sets, for which
// `sees` has them; else none.
fn known_by(sees: &[u64], k: usize, i: usize) -> u64
    requires { (most_recent ≤ length sees.now) × (i < most_sets) }
    ensures { (ms : List Edit) → length ms ≡ k → i < k → SeesTell ms sees.now → SeenBefore ms i result }
{
    if i + RECENT < k {
        return 0;
    }
    sees[i % RECENT]
}

// Which of the k first Sets, with these names, come before the one with the name y and the vector v, where `sees` has
// what the authors of the last of them had seen: with a Set that was seen, all that its author had seen was. So they
// are gone through from the last one on, and no more is asked of those that are known.
pub fn seen_of(names: &[u32], sees: &[u64], k: usize, y: u32, v: &[u16]) -> u64
    requires { (k ≤ most_sets) × (k ≤ length names.now) × (most_recent ≤ length sees.now) }
    ensures { (ms : List Edit) (e : Edit) → length ms ≡ k → NamesOf names.now ms → NameOf y e →
        e.vector ≡ v.now → SeesTell ms sees.now →
        Lawful (box_on (ms ++ (e ∷ []))) (suc (length ms)) → result ≡ seen_marks e ms }
{
    let mut seen: u64 = 0;
    let mut left = first(k);
    while left != 0 {
        let i = group_step::highest(left);
        let own = group_step::only(i);
        let mut known = own;
        if is_seen(names[i], y, v) {
            known = own | known_by(sees, k, i);
            seen |= known;
        }
        left = group_step::without(left, known);
    }
    seen
}

// Which of the Sets in some of the places, whose names these are, are foes of that with the side s; m has the numbers
// of these. What is asked of the Set itself is asked once for all of them.
pub fn foes_among(recs: &[u8], places: &[u16], names: &[u32], m: u64, s: Side) -> u64
    requires { (m < 2 ^ length places.now) × (m < 2 ^ length names.now) }
    ensures { (result ≤ m) × ((j : ℕ) →
        bit result j ≡ (bit m j && is_foe (get_or names.now j 0) s
        (record_at recs.now (get_or places.now j 0)))) }
{
    let mut plain: u64 = 0;
    let mut left = m;
    while left != 0 {
        let j = u64::trailing_zeros(left) as usize;
        let rest = group_context::but_first(left);
        if is_foe_at(recs, places[j], names[j], s) {
            plain |= left - rest;
        }
        left = rest;
    }
    plain
}
