// The shortest way through 1 to 5, for records that come in the order in which they were made: one that has seen all
// that is held is asked no more than whether it is fit and aimed.
ghost use Rattle.std.specs.Prelude.{◌≡◌, true, ◌≤◌, length};
ghost use Rattle.edit_record.specs.Layout.{most_sites, record_length};
ghost use Rattle.edit_record.specs.RecordBytes.{decode_of};
ghost use Rattle.edit_history.specs.EditsHeld.{most_records};
ghost use Rattle.edit_walk.specs.WalkForms.{passes_against, same_but, sees_all, Passing};

use super::{is_fit_and_aimed, is_passing_after};
use edit_record::{AT_SEQ, AT_SITE, AT_VECTOR, PLACE, SITES, Site};

// Whether rec has seen the last of the first n records, where there is one. This is asked first, since most records
// that have seen not all have not seen the last: so nothing depends on the answer but how long the rest takes.
fn is_last_seen(recs: &[u8], n: usize, rec: &[u8]) -> bool
    requires { (n ≤ most_records) × (record_length ≤ length rec.now) }
{
    if n == 0 {
        return true;
    }
    if recs.len() < n * PLACE {
        return false;
    }
    let last = (n - 1) * PLACE;
    let seen = edit_record::own_entry(rec, recs[last + AT_SITE]);
    edit_record::pair_at(recs, last + AT_SEQ) <= seen
}

// Whether rec, which is there whole, has in every entry but that of the site s what is counted. All are looked at here
// too.
fn is_as_counted(held: &[u16], rec: &[u8], s: u8) -> bool
    requires { (length held.now ≡ most_sites) × (record_length ≤ length rec.now) }
    ensures { result ≡ same_but held.now (decode_of rec.now).vector s }
{
    let own = s as usize;
    let mut same = true;
    for t in 0..SITES {
        let is = edit_record::pair_at(rec, AT_VECTOR + 2 * t);
        same &= (t == own) | (held[t] == is);
    }
    same
}

// Whether rec, which is there whole, is told to be the next edit of its site after the first n records, and to have
// seen all of them.
pub fn is_all_seen(held: &[u16], recs: &[u8], n: usize, rec: &[u8]) -> bool
    requires { (n ≤ most_records) × (length held.now ≡ most_sites) × (record_length ≤ length rec.now) }
    ensures { result ≡ true → sees_all held.now (decode_of rec.now) ≡ true }
{
    if !is_last_seen(recs, n, rec) {
        return false;
    }
    let s = rec[AT_SITE];
    let have = edit_history::held_from(held, Site(s));
    if edit_record::pair_at(rec, AT_SEQ) as u32 != have as u32 + 1 {
        return false;
    }
    is_as_counted(held, rec, s)
}

// Whether none of 1 to 5 is given to a record that is there whole, after the first n records, where it is known of some
// that they have seen all of these. That is a fact about them, found once and asked for twice, and not a step to run.
pub fn is_passing_with(
    all: bool,
    sites: u8,
    held: &[u16],
    recs: &[u8],
    places: &[u16],
    n: usize,
    rec: &[u8],
) -> bool
    requires { (n ≤ most_records)
        × (record_length ≤ length rec.now)
        × (length held.now ≡ most_sites)
        × Passing sites held.now recs.now n places.now
        × (all ≡ true → sees_all held.now (decode_of rec.now) ≡ true) }
    ensures { result
        ≡ passes_against sites held.now recs.now places.now
        (decode_of rec.now) }
{
    if all {
        return is_fit_and_aimed(sites, held, recs, places, rec);
    }
    is_passing_after(sites, held, recs, places, n, rec)
}
