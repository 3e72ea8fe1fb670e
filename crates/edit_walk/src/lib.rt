// The walk that tests the records of a table: whether each passes answers 1 to 5 of document 01 after those before it,
// with the counts of the edits and the index of their places that it keeps. The loop is its caller's, and the short way
// that most records take stands in `edit_next`.
#![tactic(auto)]

ghost use Rattle.std.specs.Prelude.{◌≡◌, ℕ, ◌+◌, ◌-◌, ◌*◌, ◌≤◌, ◌<◌, length, get_or};
ghost use Rattle.math_lists.specs.NumbersBelow.{sum};
ghost use Rattle.edit_record.specs.Layout.{most_sites, two_bytes, record_length, place_length};
ghost use Rattle.edit_record.specs.RecordBytes.{decode_of};
ghost use Rattle.edit_history.specs.EditsHeld.{most_records, record_at, edits_of};
ghost use Rattle.edit_history.specs.SurveyForms.{Counted};
ghost use Rattle.edit_walk.specs.WalkForms.{places_length, slot_of, place_of, count_in, Spaced};
ghost use Rattle.edit_walk.specs.WalkForms.{seen_before, vector_by, torn_by, torn_by_news};
ghost use Rattle.edit_walk.specs.WalkForms.{target_held, in_turn_against, passes_against, Walking, GoesOn};

use edit_history::RECORDS;
use edit_record::{
    AT_KIND, AT_SEQ, AT_SITE, AT_TARGET, AT_TARGET_SEQ, CREATE, PLACE, SITES, Seq, Site,
};

// The entries of an index of places: a start for each site, then the places of the edits, site after site. The edit s.q
// has its place q entries past the start of s.
pub const PLACES: usize = SITES + RECORDS + 1;

// How many of the first n records name each site.
fn count_sites(recs: &[u8], n: usize) -> [u16; SITES]
    requires { n ≤ most_records }
    ensures { Counted result (edits_of recs.now n) }
{
    let mut counts = [0u16; SITES];
    for i in 0..n {
        let site = edit_record::byte_at(recs, i * PLACE + AT_SITE) as usize;
        if site < SITES {
            counts[site] += 1;
        }
    }
    counts
}

// Puts the starts of the sites, so that there is room for so many edits of each.
pub fn space_places(counts: [u16; SITES], places: &mut [u16])
    requires { (sum most_sites (λ s. get_or counts s 0) ≤ most_records) × (length places.old ≡ places_length) }
    ensures { Spaced (λ s. get_or counts s 0) places.new }
{
    let mut at = SITES as u16;
    for (s, &n) in counts.iter().enumerate() {
        places[s] = at;
        at += n;
    }
}

// Puts the starts of the sites, so that there is room for the edits of the first n records.
pub fn start_places(recs: &[u8], n: usize, places: &mut [u16])
    requires { (n ≤ most_records) × (length places.old ≡ places_length) }
    ensures { Spaced (count_in recs.now n) places.new }
{
    let counts = count_sites(recs, n);
    space_places(counts, places);
}

// Where the index has the place of the edit s.q.
pub fn slot_of(places: &[u16], s: Site, q: Seq) -> usize
    ensures { result ≡ slot_of places.now s.0 q.0 }
{
    let start = edit_record::entry_at(places, s.0 as usize);
    start as usize + q.0 as usize
}

// Where the index has the edit in place p of the records; that edit's bytes are read where they stand.
pub fn spot(recs: &[u8], places: &[u16], p: usize) -> usize
    requires { p < most_records }
    ensures { result ≡ slot_of places.now (record_at recs.now p).site.0
        (record_at recs.now p).seq.0 }
{
    let at = p * PLACE;
    let site = edit_record::byte_at(recs, at + AT_SITE);
    let seq = edit_record::two_at(recs, at + AT_SEQ);
    slot_of(places, Site(site), Seq(seq))
}

// The place of the edit s.q by the index.
pub fn place_at(places: &[u16], s: Site, q: Seq) -> u16
    ensures { result ≡ place_of places.now s.0 q.0 }
{
    let at = slot_of(places, s, q);
    edit_record::entry_at(places, at)
}

// The place, by the index, of the target of the edit in place p.
pub fn target_place(recs: &[u8], places: &[u16], p: usize) -> u16
    requires { p < two_bytes }
    ensures { result ≡ place_of places.now (record_at recs.now p).tsite.0
        (record_at recs.now p).tseq.0 }
{
    let at = p * PLACE;
    let site = edit_record::byte_at(recs, at + AT_TARGET);
    let seq = edit_record::two_at(recs, at + AT_TARGET_SEQ);
    place_at(places, Site(site), Seq(seq))
}

// The number before q, and 0 before 0.
fn one_less(q: u16) -> u16
    ensures { result ≡ q - 1 }
{
    q.saturating_sub(1)
}

// The latest edit of site t that an edit of site s with the vector v has seen, itself left out; 0 is none. It is found
// where it is asked for: a vector with one entry written anew is slow to be read whole.
fn latest_seen(v: [u16; SITES], s: Site, t: Site) -> u16
    ensures { result ≡ get_or (seen_before v s) t.0 0 }
{
    let q = edit_record::entry(v, t);
    if t == s { one_less(q.0) } else { q.0 }
}

// The vector of the edit s.q by the index; zeros where q is 0.
fn vector_by(recs: &[u8], places: &[u16], s: Site, q: Seq) -> [u16; SITES]
    ensures { result ≡ vector_by recs.now places.now s.0 q.0 }
{
    if q.0 == 0 {
        return [0u16; SITES];
    }
    let p = place_at(places, s, q);
    edit_history::vector_at(recs, p as usize)
}

// Whether there is an edit s.q, and its vector has an entry larger than w's.
fn is_torn_at(recs: &[u8], places: &[u16], w: [u16; SITES], s: Site, q: Seq) -> bool
    ensures { result ≡ torn_by recs.now places.now w s.0 q.0 }
{
    if q.0 == 0 {
        return false;
    }
    let p = place_at(places, s, q);
    let v = edit_history::vector_at(recs, p as usize);
    edit_history::is_larger_somewhere(v, w)
}

// Whether answer 4 is given to an edit of site s with the vector w: by its author's edit before it, and by the latest
// edits of the other sites that it has seen and that one had not.
pub fn is_torn_by_news(recs: &[u8], places: &[u16], w: [u16; SITES], s: Site) -> bool
    ensures { result ≡ torn_by_news recs.now places.now w s }
{
    let last = latest_seen(w, s, s);
    let was = vector_by(recs, places, s, Seq(last));
    let mut found = edit_history::is_larger_somewhere(was, w);
    for t in 0..SITES as u8 {
        let q = latest_seen(w, s, Site(t));
        if q != was[t as usize] {
            found |= is_torn_at(recs, places, w, Site(t), Seq(q));
        }
    }
    found
}

// Whether the target of the record at the front of rec, which is there whole, was seen, is held, and is a Create.
pub fn is_target_held(held: &[u16], recs: &[u8], places: &[u16], rec: &[u8]) -> bool
    requires { record_length ≤ length rec.now }
    ensures { result
        ≡ target_held held.now recs.now places.now (decode_of rec.now) }
{
    let site = rec[AT_TARGET];
    let seq = edit_record::pair_at(rec, AT_TARGET_SEQ);
    let seen = edit_record::own_entry(rec, site);
    let have = edit_history::held_from(held, Site(site));
    let p = place_at(places, Site(site), Seq(seq));
    let kind = edit_history::kind_at(recs, p as usize);
    (0 < seq) & (seq <= seen) & (seq <= have) & (kind == CREATE)
}

// Whether none of 1 to 3 is given to the record at the front of rec, which is there whole, by the counts of the records
// before it.
pub fn is_in_turn(sites: u8, held: &[u16], rec: &[u8]) -> bool
    requires { (record_length ≤ length rec.now) × (most_sites ≤ length held.now) }
    ensures { result ≡ in_turn_against sites held.now (decode_of rec.now) }
{
    if edit_fit::is_unfit(sites, rec) {
        return false;
    }
    let v = edit_record::vector_of(rec);
    let s = Site(rec[AT_SITE]);
    let q = Seq(edit_record::pair_at(rec, AT_SEQ));
    !(edit_history::is_repeated(held, s, q) | edit_history::is_early(held, v, s, q))
}

// Whether none of 1 to 5 is given to it, by the counts and the index of the records before it. What costs more is
// tested where the rest has passed.
pub fn is_passing(sites: u8, held: &[u16], recs: &[u8], places: &[u16], rec: &[u8]) -> bool
    requires { (record_length ≤ length rec.now) × (most_sites ≤ length held.now) }
    ensures { result
        ≡ passes_against sites held.now recs.now places.now
        (decode_of rec.now) }
{
    if !is_in_turn(sites, held, rec) {
        return false;
    }
    let v = edit_record::vector_of(rec);
    if is_torn_by_news(recs, places, v, Site(rec[AT_SITE])) {
        return false;
    }
    if edit_record::is_aimed_kind(rec[AT_KIND]) {
        return is_target_held(held, recs, places, rec);
    }
    true
}

// The same of the record in place p.
pub fn is_passing_at(sites: u8, held: &[u16], recs: &[u8], places: &[u16], p: usize) -> bool
    requires { (p < most_records)
        × (p * place_length + place_length ≤ length recs.now)
        × (most_sites ≤ length held.now) }
    ensures { result
        ≡ passes_against sites held.now recs.now places.now
        (record_at recs.now p) }
{
    let at = p * PLACE;
    is_passing(sites, held, recs, places, &recs[at..])
}

// Takes the record in place i, with which the walk goes on, into the counts and the index.
pub fn put_next(recs: &[u8], i: usize, held: &mut [u16], places: &mut [u16])
    requires { (i < most_records)
        × (i * place_length + place_length ≤ length recs.now)
        × ((sites : ℕ) × (room : ℕ → ℕ) × (sites ≤ most_sites)
        × Walking sites room recs.now i held.old places.old
        × GoesOn sites room recs.now i held.old places.old) }
    ensures { (sites : ℕ) (room : ℕ → ℕ) → sites ≤ most_sites →
        Walking sites room recs.now i held.old places.old →
        GoesOn sites room recs.now i held.old places.old →
        Walking sites room recs.now (i + 1) held.new places.new }
{
    let at = i * PLACE;
    let own = recs[at + AT_SITE] as usize;
    let start = places[own];
    let seq = edit_record::pair_at(recs, at + AT_SEQ);
    places[start as usize + seq as usize] = i as u16;
    held[own] += 1;
}
