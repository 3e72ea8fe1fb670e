// The short way through 1 to 5 that most records take: a record whose vector is that of one before it, with one edit
// more of its own, has seen nothing that was not tested with that one. And whether the walk over the records of a table
// goes on with a record.
#![tactic(auto)]

pub mod whole;

ghost use Rattle.std.specs.Prelude.{OnSome, ◌≡◌, true, false, not, ◌&&◌, ◌||◌, ℕ, ◌+◌, ◌*◌, ◌≤◌, ◌<◌, leb, length, get_or};
ghost use Rattle.edit_record.specs.Layout.{most_sites, set_kind, record_length, place_length};
ghost use Rattle.edit_record.specs.RecordBytes.{decode_of};
ghost use Rattle.edit_record.specs.Answer1.{is_aimed, nonzero_past, unfit};
ghost use Rattle.edit_history.specs.EditsHeld.{most_records, record_at, edits_of};
ghost use Rattle.edit_history.specs.Answers2to5.{is_torn};
ghost use Rattle.edit_walk.specs.WalkForms.{target_held, in_turn_against, passes_against};
ghost use Rattle.edit_walk.specs.WalkForms.{same_but, is_next, Passing, Walking, GoesOn, Stops};

use edit_record::{
    AT_KEY, AT_KIND, AT_SEQ, AT_SITE, AT_TARGET, AT_TARGET_SEQ, AT_VECTOR, KEYS, PLACE, SET, SITES,
    Seq, Site,
};
use edit_walk::{is_passing, is_passing_at, is_target_held, is_torn_by_news, place_at};

// Whether rec has in every entry but that of the site s what x has; both are there whole. All are looked at, which is
// faster than to stop at the first that differs.
fn is_same_but(x: &[u8], rec: &[u8], s: u8) -> bool
    requires { (record_length ≤ length x.now) × (record_length ≤ length rec.now) }
    ensures { result ≡ same_but (decode_of x.now).vector (decode_of rec.now).vector s }
{
    let own = s as usize;
    let mut same = true;
    for t in 0..SITES {
        let was = edit_record::pair_at(x, AT_VECTOR + 2 * t);
        let is = edit_record::pair_at(rec, AT_VECTOR + 2 * t);
        same &= (t == own) | (was == is);
    }
    same
}

// Whether rec has the vector of x with one edit more of the site s; both are there whole.
fn is_next_to(x: &[u8], rec: &[u8], s: u8) -> bool
    requires { (record_length ≤ length x.now) × (record_length ≤ length rec.now) }
    ensures { result ≡ is_next (decode_of x.now).vector (decode_of rec.now).vector s }
{
    let was = edit_record::own_entry(x, s);
    let is = edit_record::own_entry(rec, s);
    if is as u32 != was as u32 + 1 {
        return false;
    }
    is_same_but(x, rec, s)
}

// The place of the record that rec may follow, if rec, which is there whole, is the next of its author after the first
// p records: the last of these, where rec has seen that, else the author's own before it, or where there is none, the
// target of rec. Whether it follows is for others to test.
fn likely_before(held: &[u16], recs: &[u8], places: &[u16], p: usize, rec: &[u8]) -> Option<usize>
    requires { (p ≤ most_records) × (record_length ≤ length rec.now) }
    ensures { OnSome result ((p * place_length ≤ length recs.now)
        × ((decode_of rec.now).seq.0
        ≡ get_or held.now (decode_of rec.now).site.0 0 + 1)) }
{
    if p == 0 {
        return None;
    }
    if recs.len() < p * PLACE {
        return None;
    }
    let s = rec[AT_SITE];
    let have = edit_history::held_from(held, Site(s));
    if edit_record::pair_at(rec, AT_SEQ) as u32 != have as u32 + 1 {
        return None;
    }
    let last = (p - 1) * PLACE;
    let seen = edit_record::own_entry(rec, recs[last + AT_SITE]);
    if edit_record::pair_at(recs, last + AT_SEQ) <= seen {
        return Some(p - 1);
    }
    if have == 0 {
        let seq = edit_record::pair_at(rec, AT_TARGET_SEQ);
        return Some(place_at(places, Site(rec[AT_TARGET]), Seq(seq)) as usize);
    }
    Some(place_at(places, Site(s), Seq(have)) as usize)
}

// Whether the record in place r is one of the first p, and rec has its vector with one edit more of its own. Apart from
// the choice of r, so that a caller takes that in and makes one call.
fn is_next_at(recs: &[u8], p: usize, r: usize, rec: &[u8]) -> bool
    requires { (p ≤ most_records)
        × (record_length ≤ length rec.now)
        × (r < p → p * place_length ≤ length recs.now) }
    ensures { result ≡ true → (r < p)
        × (is_next (record_at recs.now r).vector (decode_of rec.now).vector
        (decode_of rec.now).site.0 ≡ true) }
{
    if p <= r {
        return false;
    }
    let from = r * PLACE;
    is_next_to(&recs[from..], rec, rec[AT_SITE])
}

// Whether the record in place p has in every entry but that of the site s what the record in place r has. Not by
// `is_same_but`, so that it has one caller, the walk, which takes it in.
fn is_same_in(recs: &[u8], r: usize, p: usize, s: u8) -> bool
    requires { (r < p) × (p < most_records) × (p * place_length + place_length ≤ length recs.now) }
    ensures { result ≡ same_but (record_at recs.now r).vector (record_at recs.now p).vector s }
{
    let own = s as usize;
    let from = r * PLACE;
    let to = p * PLACE;
    let mut same = true;
    for t in 0..SITES {
        let was = edit_record::pair_at(recs, from + AT_VECTOR + 2 * t);
        let is = edit_record::pair_at(recs, to + AT_VECTOR + 2 * t);
        same &= (t == own) | (was == is);
    }
    same
}

// What `is_next_at` asks, of the record in place p. The walk asks it of each record, and has it to itself: so it is
// taken in, and what was read of a record need not be read again.
fn is_next_in(recs: &[u8], r: usize, p: usize) -> bool
    requires { (p < most_records) × (p * place_length + place_length ≤ length recs.now) }
    ensures { result ≡ true → (r < p)
        × (is_next (record_at recs.now r).vector (record_at recs.now p).vector
        (record_at recs.now p).site.0 ≡ true) }
{
    if p <= r {
        return false;
    }
    let own = recs[p * PLACE + AT_SITE];
    if SITES <= own as usize {
        return false;
    }
    let had = edit_record::pair_at(recs, r * PLACE + AT_VECTOR + 2 * own as usize);
    let has = edit_record::pair_at(recs, p * PLACE + AT_VECTOR + 2 * own as usize);
    if has as u32 != had as u32 + 1 {
        return false;
    }
    is_same_in(recs, r, p, own)
}

// Whether answer 4 is given to rec, to which none of 1 to 3 is given and which is there whole, where the first p
// records pass and the counts and the index are theirs.
pub fn is_torn_next(held: &[u16], recs: &[u8], places: &[u16], p: usize, rec: &[u8]) -> bool
    requires { (p ≤ most_records)
        × (record_length ≤ length rec.now)
        × ((sites : ℕ) × Passing sites held.now recs.now p places.now
        × (in_turn_against sites held.now (decode_of rec.now) ≡ true)) }
    ensures { result ≡ is_torn (edits_of recs.now p) (decode_of rec.now) }
{
    let v = edit_record::vector_of(rec);
    is_torn_by_news(recs, places, v, Site(rec[AT_SITE]))
}

// What `is_body_unfit` says of a plain Set, as most records are: little is asked, and it is asked without a call.
fn is_set_unfit(n: u8, rec: &[u8]) -> bool
    requires { (record_length ≤ length rec.now) × ((decode_of rec.now).kind ≡ set_kind) }
    ensures { (leb n (decode_of rec.now).site.0 ≡ false →
        nonzero_past n (decode_of rec.now).vector ≡ false) →
        result ≡ unfit n (decode_of rec.now) }
{
    let site = rec[AT_SITE];
    if n <= site {
        return true;
    }
    let key = rec[AT_KEY];
    let seq = edit_record::pair_at(rec, AT_SEQ);
    let tseq = edit_record::pair_at(rec, AT_TARGET_SEQ);
    let own = edit_record::own_entry(rec, site);
    (seq == 0) | (seq != own) | (KEYS <= key) | (tseq == 0)
}

// Whether none of 1 to 5 is given to a record that is there whole and follows one of those before it, by the counts
// and the index of these.
pub fn is_fit_and_aimed(sites: u8, held: &[u16], recs: &[u8], places: &[u16], rec: &[u8]) -> bool
    requires { record_length ≤ length rec.now }
    ensures { (leb sites (decode_of rec.now).site.0 ≡ false →
        nonzero_past sites (decode_of rec.now).vector ≡ false) →
        result ≡ not (unfit sites (decode_of rec.now)
        || is_aimed (decode_of rec.now)
        && not (target_held held.now recs.now places.now
        (decode_of rec.now))) }
{
    if edit_fit::is_body_unfit(sites, rec) {
        return false;
    }
    if edit_record::is_aimed_kind(rec[AT_KIND]) {
        return is_target_held(held, recs, places, rec);
    }
    true
}

// The same of a plain Set, as most records are. It has one caller, which so takes it in: a call costs more than what is
// asked here.
fn is_set_fit_and_aimed(sites: u8, held: &[u16], recs: &[u8], places: &[u16], rec: &[u8]) -> bool
    requires { (record_length ≤ length rec.now) × ((decode_of rec.now).kind ≡ set_kind) }
    ensures { (leb sites (decode_of rec.now).site.0 ≡ false →
        nonzero_past sites (decode_of rec.now).vector ≡ false) →
        result ≡ not (unfit sites (decode_of rec.now)
        || is_aimed (decode_of rec.now)
        && not (target_held held.now recs.now places.now
        (decode_of rec.now))) }
{
    if is_set_unfit(sites, rec) {
        return false;
    }
    is_target_held(held, recs, places, rec)
}

// Whether none of 1 to 5 is given to the record in place p, where those before it pass and the counts and the index are
// theirs.
pub fn is_passing_next(sites: u8, held: &[u16], recs: &[u8], places: &[u16], p: usize) -> bool
    requires { (p < most_records)
        × (p * place_length + place_length ≤ length recs.now)
        × (length held.now ≡ most_sites)
        × Passing sites held.now recs.now p places.now }
    ensures { result
        ≡ passes_against sites held.now recs.now places.now
        (record_at recs.now p) }
{
    let at = p * PLACE;
    let rec = &recs[at..];
    if let Some(r) = likely_before(held, recs, places, p, rec) {
        if is_next_in(recs, r, p) {
            if rec[AT_KIND] == SET {
                return is_set_fit_and_aimed(sites, held, recs, places, rec);
            }
            return is_fit_and_aimed(sites, held, recs, places, rec);
        }
    }
    is_passing_at(sites, held, recs, places, p)
}

// The same of a record that is there whole and stands anywhere, after the first p records.
pub fn is_passing_after(
    sites: u8,
    held: &[u16],
    recs: &[u8],
    places: &[u16],
    p: usize,
    rec: &[u8],
) -> bool
    requires { (p ≤ most_records)
        × (record_length ≤ length rec.now)
        × (length held.now ≡ most_sites)
        × Passing sites held.now recs.now p places.now }
    ensures { result
        ≡ passes_against sites held.now recs.now places.now
        (decode_of rec.now) }
{
    if let Some(r) = likely_before(held, recs, places, p, rec) {
        if is_next_at(recs, p, r, rec) {
            return is_fit_and_aimed(sites, held, recs, places, rec);
        }
    }
    is_passing(sites, held, recs, places, rec)
}

// Whether the walk over the first i records goes on: none of 1 to 5 is given to the record in place i, and the index
// has room for its edit.
pub fn goes_on(sites: u8, room: &[u16], held: &[u16], recs: &[u8], places: &[u16], i: usize) -> bool
    requires { (sites ≤ most_sites)
        × (length room.now ≡ most_sites)
        × (i < most_records)
        × (i * place_length + place_length ≤ length recs.now)
        × Walking sites (λ s. get_or room.now s 0) recs.now i held.now places.now }
    ensures { (result ≡ true →
        GoesOn sites (λ s. get_or room.now s 0) recs.now i held.now
        places.now)
        × (result ≡ false → Stops sites (λ s. get_or room.now s 0) recs.now i) }
{
    if !is_passing_next(sites, held, recs, places, i) {
        return false;
    }
    let own = recs[i * PLACE + AT_SITE] as usize;
    held[own] < room[own]
}
