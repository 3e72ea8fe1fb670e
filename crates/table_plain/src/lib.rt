// The short way of a record: what was found of it in one look is all that is asked, and what it changes is written
// where it stands. A record that it does not take goes the long way, which says why.
#![tactic(auto)]

ghost use Rattle.std.specs.Prelude.{◌≡◌, true, false, cond, ℕ, ◌+◌, ◌-◌, ◌*◌, ◌^◌, ◌≤◌, ◌<◌, length, set, take, drop, replicate};
ghost use Rattle.math_lists.specs.SortedLists.{elem, Ascending};
ghost use Rattle.math_maximal.specs.Step.{step};
ghost use Rattle.edit_record.specs.Layout.{record_length};
ghost use Rattle.edit_record.specs.RecordBytes.{decode_of, span_of};
ghost use Rattle.edit_record.specs.Answer1.{is_create};
ghost use Rattle.edit_history.specs.EditsHeld.{most_records};
ghost use Rattle.edit_history.specs.SurveyForms.{bump};
ghost use Rattle.edit_sum.specs.WordSum.{wrapped, record_words, sum_of};
ghost use Rattle.group_step.specs.GroupRows.{most_objects, most_sets, most_groups, row, put_row, settled};
ghost use Rattle.group_step.specs.StepForms.{Apart};
ghost use Rattle.table_drawing.specs.Tables.{tables_of, objects_length};
ghost use Rattle.table_index.specs.IndexForms.{counters_of, FitOf};
ghost use Rattle.table_arrival.specs.Arrival.{put_entry};
ghost use Rattle.table_plain.specs.TakingForms.{TakesShort, TookShort, spot_of, Enters, Steps, SetStored};
ghost use Rattle.table_plain.specs.TakingForms.{StoresBeside, StoredBeside, JudgedBy};

use edit_record::{AT_KEY, AT_KIND, AT_SEQ, AT_SITE, CREATE, RECORD, SET, Seq, Site};
use group_step::GROUPS;
use table_drawing::ENTRY;
use table_index::{Index, Looked};

// How many objects there are after a record that was taken, and the sum.
#[derive(Clone, Copy)]
pub struct Took {
    pub objects: u16,
    pub sum: u32,
}

// Counts the record rec, which has place n, and puts its place into the index.
pub fn enter(held: &mut [u16], n: usize, places: &mut [u16], rec: &[u8])
    requires { (record_length ≤ length rec.now) × Enters held.old n places.old rec.now }
    ensures { (held.new ≡ bump held.old (decode_of rec.now).site)
        × (places.new
        ≡ set places.old (spot_of places.old rec.now) n) }
{
    let s = rec[AT_SITE];
    let q = edit_record::pair_at(rec, AT_SEQ);
    let own = s as usize;
    held[own] += 1;
    let at = edit_walk::slot_of(places, Site(s), Seq(q));
    places[at] = n as u16;
}

// The bytes of a plain record. A copy is read slowly right after it was made: so this one is made last of all.
fn whole_of(rec: &[u8]) -> [u8; RECORD]
    requires { length rec.now ≡ record_length }
    ensures { result ≡ rec.now }
{
    let mut whole = [0u8; RECORD];
    whole.copy_from_slice(rec);
    whole
}

// Puts the entry of a new object m, whose Create has place n, and its number into the index.
fn put_create(n: usize, m: u16, objects: &mut [u16], numbers: &mut [u8])
    requires { (n < most_records)
        × (m < most_objects)
        × (length objects.old ≡ objects_length)
        × (length numbers.old ≡ most_records) }
    ensures { (objects.new ≡ put_entry objects.old m n 0 1)
        × (numbers.new ≡ set numbers.old n m) }
{
    table_arrival::put_object(objects, m as usize, n as u16);
    numbers[n] = m as u8;
}

// The step on the row of object o, in which no group is part of a larger one and 0 stands behind them.
fn step_in(groups: &mut [u64], o: usize, n: usize, m: u64, k: usize) -> usize
    requires { (length groups.old ≡ most_objects * most_groups)
        × (o < most_objects)
        × (n ≤ most_groups)
        × (k < most_sets)
        × Ascending (take n (row o groups.old))
        × ((x : ℕ) → elem x (take n (row o groups.old)) ≡ true → x < 2 ^ k)
        × Apart (take n (row o groups.old))
        × (drop n (row o groups.old) ≡ replicate (most_groups - n) 0) }
    ensures { (result ≡ length (step m k (take n (row o groups.old))))
        × (groups.new
        ≡ put_row o groups.old
        (settled (step m k (take n (row o groups.old))) (row o groups.old))) }
{
    if m == 0 {
        group_apart::gain_at(groups, o, n, k);
        return n;
    }
    group_apart::step_apart_at(groups, o, n, m, k)
}

// Puts a Set in place n of which a was found into its object's groups, entry and chain; says whether there is room for
// the groups. Where there is none, nothing is changed.
pub fn store_set(
    n: usize,
    objects: &mut [u16],
    groups: &mut [u64],
    numbers: &mut [u8],
    counts: &mut [u16],
    chains: &mut [u8],
    kind: u8,
    key: u8,
    a: Looked,
) -> bool
    requires { (n < most_records)
        × Steps objects.old groups.old numbers.old counts.old chains.old key a }
    ensures { SetStored n kind key a result
        objects.old groups.old numbers.old counts.old chains.old
        objects.new groups.new numbers.new counts.new chains.new }
{
    let o = a.object;
    let k = a.sets;
    let g = objects[o * ENTRY + 2];
    let w = step_in(groups, o, g as usize, a.conflicts, k);
    if GROUPS < w {
        return false;
    }
    table_arrival::put_counts(objects, o, k as u16 + 1, w as u16);
    table_index::add_set(n, o, kind, key, numbers, counts, chains);
    true
}

// Puts what a record in place n, of which a was found, changes beside itself: of a Set its object's groups, entry and
// chain, of a Create the entry and the number of object m. Says whether there is room for the groups; where there is
// none, nothing is changed.
fn store(
    ix: &mut Index,
    n: usize,
    m: u16,
    objects: &mut [u16],
    groups: &mut [u64],
    rec: &[u8],
    a: Looked,
) -> bool
    requires { (n < most_records)
        × (record_length ≤ length rec.now)
        × StoresBeside m objects.old groups.old ix.old.numbers ix.old.counts ix.old.chains (decode_of rec.now) a }
    ensures { StoredBeside n m (decode_of rec.now) a result
        objects.old groups.old ix.old.numbers ix.old.counts ix.old.chains
        objects.new groups.new ix.new.numbers ix.new.counts ix.new.chains
        × (ix.new.places ≡ ix.old.places) }
{
    let kind = rec[AT_KIND];
    if kind == SET {
        let key = rec[AT_KEY];
        return store_set(
            n,
            objects,
            groups,
            &mut ix.numbers,
            &mut ix.counts,
            &mut ix.chains,
            SET,
            key,
            a,
        );
    }
    if kind == CREATE {
        put_create(n, m, objects, &mut ix.numbers);
    }
    true
}

// What is said of a record that is taken, where there were m objects and this sum.
fn taken(m: u16, sum: u32, rec: &[u8]) -> Took
    requires { (length rec.now ≡ record_length)
        × (span_of rec.now ≡ record_length)
        × (is_create (decode_of rec.now) ≡ true → m < most_objects) }
    ensures { (result.objects ≡ m + cond (is_create (decode_of rec.now)) 1 0)
        × (result.sum ≡ wrapped (sum + sum_of (record_words rec.now) rec.now)) }
{
    let after = edit_sum::added(sum, edit_sum::sum_record(rec));
    if rec[AT_KIND] == CREATE {
        return Took {
            objects: m + 1,
            sum: after,
        };
    }
    Took {
        objects: m,
        sum: after,
    }
}

// Takes a record of which a was found, and which is not limited, nor another Set of its object, unless there is no room
// for the groups of its object: then nothing is changed. There are n records, m objects and so many edits of each site,
// and this sum; the index has room for the record. It is read where it stands, and stored from a copy.
pub fn take_plain(
    ix: &mut Index,
    sites: u8,
    n: usize,
    m: u16,
    sum: u32,
    held: &mut [u16],
    records: &mut [u8],
    objects: &mut [u16],
    groups: &mut [u64],
    rec: &[u8],
    a: Looked,
) -> Option<Took>
    requires { TakesShort
        (tables_of (counters_of sites n m held.old sum) records.old objects.old groups.old)
        ix.old.places ix.old.numbers ix.old.counts ix.old.chains rec.now
        × FitOf sites n m records.old ix.old.places ix.old.numbers ix.old.counts (decode_of rec.now) a }
    ensures { TookShort sites n m sum
        (tables_of (counters_of sites n m held.old sum) records.old objects.old groups.old)
        rec.now result held.new records.new objects.new groups.new
        ix.old.places ix.old.numbers ix.old.counts ix.old.chains
        ix.new.places ix.new.numbers ix.new.counts ix.new.chains }
{
    if !store(ix, n, m, objects, groups, rec, a) {
        return None;
    }
    enter(held, n, &mut ix.places, rec);
    let whole = whole_of(rec);
    table_arrival::put_plain(records, n, whole);
    Some(taken(m, sum, rec))
}

// Takes a Set of which a was found, with those of its object's Sets that were judged to conflict with it, unless there
// is no room for the groups of its object: then nothing is changed.
pub fn take_judged(
    ix: &mut Index,
    sites: u8,
    n: usize,
    m: u16,
    sum: u32,
    held: &mut [u16],
    records: &mut [u8],
    objects: &mut [u16],
    groups: &mut [u64],
    rec: &[u8],
    a: Looked,
) -> Option<Took>
    requires { TakesShort
        (tables_of (counters_of sites n m held.old sum) records.old objects.old groups.old)
        ix.old.places ix.old.numbers ix.old.counts ix.old.chains rec.now
        × JudgedBy (tables_of (counters_of sites n m held.old sum) records.old objects.old groups.old)
        ix.old.places ix.old.numbers ix.old.counts rec.now a }
    ensures { TookShort sites n m sum
        (tables_of (counters_of sites n m held.old sum) records.old objects.old groups.old)
        rec.now result held.new records.new objects.new groups.new
        ix.old.places ix.old.numbers ix.old.counts ix.old.chains
        ix.new.places ix.new.numbers ix.new.counts ix.new.chains }
{
    let kind = rec[AT_KIND];
    let key = rec[AT_KEY];
    if !store_set(
        n,
        objects,
        groups,
        &mut ix.numbers,
        &mut ix.counts,
        &mut ix.chains,
        kind,
        key,
        a,
    ) {
        return None;
    }
    enter(held, n, &mut ix.places, rec);
    table_arrival::put_record(records, n, rec);
    let after = edit_sum::added(sum, edit_sum::sum_record(rec));
    Some(Took {
        objects: m,
        sum: after,
    })
}
