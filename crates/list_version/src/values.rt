// The values of a version. A stamp is an edit's key, then its place in the total order, then its value, as one number
// that is never 0 for a key: the largest stamp of the members with a key is that of the last one. The stamps of an
// object's Sets are made once, and with them is noted which Sets have a key, so that a version looks at few of them.
ghost use Rattle.std.specs.Prelude.{◌≡◌, List, ℕ, ◌+◌, ◌*◌, ◌-◌, ◌≤◌, ◌<◌, length, take, drop, set, replicate};
ghost use Rattle.edit_record.specs.declared.Edit.{Edit};
ghost use Rattle.edit_record.specs.Layout.{most_sites, keys, two_bytes, record_length, vector_at};
ghost use Rattle.edit_record.specs.RecordBytes.{counts};
ghost use Rattle.edit_causal.specs.TotalOrder.{vector_sum};
ghost use Rattle.edit_history.specs.EditsHeld.{record_at};
ghost use Rattle.group_step.specs.GroupRows.{most_sets};
ghost use Rattle.table_sets.specs.FieldForms.{HasFields};
ghost use Rattle.list_version.specs.Identifier.{site_numbers};
ghost use Rattle.list_version.specs.VersionForms.{sets_at, stamp_of, values, placings, Small, Stamped};
ghost use Rattle.list_version.specs.VersionForms.{largest_by, KeyedBy, KeyedTo};

use super::{ALL_KEYS, SITE_NUMBERS};
use edit_record::{AT_KEY, AT_SITE, AT_VECTOR, KEYS, PLACE, RECORD, SITES, VALUES};
use group_step::{has, highest, only, without};
use table_sets::copied::copy_at;

// A number above each place in the total order with a value behind it.
const PLACINGS: u64 = 1152921504606846976;

// A key, a place in the total order, which is a vector's sum and then a site, and a value as one number.
fn stamped(key: u8, sum: u32, site: u8, value: u32) -> u64
    requires { (key < keys) × (sum ≤ most_sites * (two_bytes - 1)) }
    ensures { result ≡ key * placings + ((sum * site_numbers + site) * values + value + 1) }
{
    key as u64 * PLACINGS + ((sum as u64 * SITE_NUMBERS + site as u64) * VALUES + value as u64 + 1)
}

// The sum of the entries in the vector of a record that is there whole. They are read two at a time, which a processor
// adds up in half as many steps.
fn sum_of(rec: &[u8]) -> u32
    requires { record_length ≤ length rec.now }
    ensures { (result ≡ vector_sum (counts most_sites (drop vector_at rec.now)))
        × (result ≤ most_sites * (two_bytes - 1)) }
{
    let mut total: u32 = 0;
    for i in 0..SITES / 2 {
        let both = edit_record::four_at(rec, AT_VECTOR + 4 * i);
        total = total + both % 65536 + both / 65536;
    }
    total
}

// The stamp of a record that is there whole; 0 for a key that is none.
fn stamp_of(rec: &[u8]) -> u64
    requires { record_length ≤ length rec.now }
    ensures { (e : Edit) → HasFields rec.now e → (result ≡ stamp_of e) × Small e }
{
    let sum = sum_of(rec);
    let value = edit_record::value_of(rec);
    let site = edit_record::byte_at(rec, AT_SITE);
    let key = edit_record::byte_at(rec, AT_KEY);
    if KEYS <= key {
        return 0;
    }
    stamped(key, sum, site, value)
}

// The stamp of the record in place p, which is read where it stands, if all of it is there.
fn stamp_at(recs: &[u8], p: u16) -> u64
    ensures { (result ≡ stamp_of (record_at recs.now p)) × Small (record_at recs.now p) }
{
    let at = p as usize * PLACE;
    let end = at + RECORD;
    if end <= recs.len() {
        return stamp_of(&recs[at..end]);
    }
    let rec = copy_at(recs, p);
    stamp_of(&rec)
}

// Notes that the i-th Set has the stamp s: among those of its key, and as a peak if it outdoes all of them before it.
// `tops` has a stamp of each key that none before it outdoes; gives the peaks.
fn note(keyed: &mut [u64], tops: &mut [u64], peaks: u64, i: usize, s: u64) -> u64
    requires { (i < most_sets) × (length keyed.old ≡ keys) × (length tops.old ≡ keys) }
    ensures { (stamps : List ℕ) → i < length stamps →
        KeyedTo stamps keyed.old tops.old peaks i →
        KeyedTo (set stamps i s) keyed.new tops.new result (i + 1) }
{
    let k = (s / PLACINGS) as usize;
    let own = only(i);
    keyed[k] |= own;
    if s <= tops[k] {
        return peaks;
    }
    tops[k] = s;
    peaks | own
}

// Puts the stamps of the t Sets at the front of out, and those that have each key into keyed, which is all 0; gives
// the peaks.
pub fn put_stamps(out: &mut [u64], keyed: &mut [u64], recs: &[u8], places: &[u16], t: usize) -> u64
    requires { (t ≤ length places.now)
        × (t ≤ length out.old)
        × (t ≤ most_sets)
        × (keyed.old ≡ replicate keys 0) }
    ensures { Stamped (sets_at recs.now (take t places.now)) (take t out.new)
        × KeyedBy out.new keyed.new result t }
{
    let mut tops = [0u64; ALL_KEYS];
    let mut peaks: u64 = 0;
    for i in 0..t {
        let s = stamp_at(recs, places[i]);
        out[i] = s;
        peaks = note(keyed, &mut tops, peaks, i, s);
    }
    peaks
}

// The largest stamp of the key k among the members of g; 0 where there is none. They are gone through from the last one
// on as far as a peak, which those before it do not outdo.
pub fn last_of(stamps: &[u64], t: usize, keyed: &[u64], peaks: u64, g: u64, k: usize) -> u64
    requires { (t ≤ length stamps.now)
        × (t ≤ most_sets)
        × (k < keys)
        × (keys ≤ length keyed.now)
        × KeyedBy stamps.now keyed.now peaks t }
    ensures { result ≡ largest_by (take t stamps.now) g k }
{
    let mut found: u64 = 0;
    let mut left = g & keyed[k];
    while left != 0 {
        let i = highest(left);
        found = found.max(stamps[i]);
        if has(peaks, i) {
            return found;
        }
        left = without(left, only(i));
    }
    found
}
