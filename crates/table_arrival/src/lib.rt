// What an arriving edit does to the tables: document 01, 'Numbers given back' and 'Conflict, groups, identifiers'.
#![tactic(auto)]

pub mod asked;
mod judging;

ghost use Rattle.std.specs.Prelude.{◌≡◌, [], ◌∷◌, ◌+◌, ◌≤◌, ◌<◌, length, get_or};
ghost use Rattle.std.specs.Result.{result_unwrap_or};
ghost use Rattle.edit_record.specs.Layout.{two_bytes, record_length, place_length};
ghost use Rattle.edit_record.specs.RecordBytes.{span_of};
ghost use Rattle.edit_history.specs.EditsHeld.{most_records};
ghost use Rattle.group_step.specs.GroupRows.{most_objects};
ghost use Rattle.table_drawing.specs.Tables.{tables_of, records_length, objects_length};
ghost use Rattle.table_drawing.specs.AnswerNumbers.{outcome_of, answer_of};
ghost use Rattle.table_arrival.specs.Answers6and7.{first_of, in_turn};
ghost use Rattle.table_arrival.specs.Arrival.{counted, put_record, put_counts, put_entry, acceptance_of, arrival_of};
ghost use Rattle.table_arrival.specs.ArrivalForms.{full_with, surveyed_sets, to_six_by, InHand, Ready};

use edit_history::{Held, RECORDS, Surveyed};
use edit_record::{AT_KIND, AT_SITE, CREATE, PLACE, RECORD, Site};
use edit_walk::PLACES;
use group_limited::Judged;
use group_step::{OBJECTS, SETS};
use table_drawing::{Counters, ENTRY, Refusal};

// Of the Sets of an object how many they are, which of them conflict with an edit by document 01's rule, bit i for the
// i-th, and whether one is limited.
#[derive(Clone, Copy)]
pub struct Mates {
    pub sets: usize,
    pub plain: u64,
    pub limited: bool,
}

// The bytes of the record src into d. A loop: of a length that is known at run time alone, `copy_from_slice` is a call,
// and reading a file takes longer by it.
fn copy_record(d: &mut [u8], src: &[u8])
    requires { length d.old ≡ length src.now }
    ensures { d.new ≡ src.now }
{
    for i in 0..src.len() {
        d[i] = src[i];
    }
}

// The record rec at the front of place p.
pub fn put_record(recs: &mut [u8], p: usize, rec: &[u8])
    requires { (p < most_records)
        × (length recs.old ≡ records_length)
        × (length rec.now ≡ span_of rec.now)
        × (span_of rec.now ≤ place_length) }
    ensures { recs.new ≡ put_record recs.old p rec.now }
{
    let at = p * PLACE;
    let end = at + rec.len();
    copy_record(&mut recs[at..end], rec);
}

// A plain record at the front of place p.
pub fn put_plain(recs: &mut [u8], p: usize, rec: [u8; RECORD])
    requires { (p < most_records) × (length recs.old ≡ records_length) }
    ensures { recs.new ≡ put_record recs.old p rec }
{
    let at = p * PLACE;
    let end = at + RECORD;
    recs[at..end].copy_from_slice(&rec);
}

// The number of Sets and the number of groups in the entry of object o.
pub fn put_counts(objects: &mut [u16], o: usize, k: u16, g: u16)
    requires { (o < most_objects) × (length objects.old ≡ objects_length) }
    ensures { objects.new ≡ put_counts objects.old o k g }
{
    let at = o * ENTRY;
    objects[at + 1] = k;
    objects[at + 2] = g;
}

// The entry of a new object o: the place of its Create, no Sets, and one group.
pub fn put_object(objects: &mut [u16], o: usize, p: u16)
    requires { (o < most_objects) × (length objects.old ≡ objects_length) }
    ensures { objects.new ≡ put_entry objects.old o p 0 1 }
{
    let at = o * ENTRY;
    objects[at] = p;
    objects[at + 1] = 0;
    objects[at + 2] = 1;
}

// The counters with one record more, rec of site s, and d objects more.
fn counted_with(c: Counters, s: Site, rec: &[u8], d: u16) -> Counters
    requires { (c.records < most_records)
        × (c.objects + d < two_bytes)
        × (length rec.now ≡ span_of rec.now)
        × (get_or c.held s.0 0 < most_records) }
    ensures { result ≡ counted c s rec.now d }
{
    let v = c.held;
    let held = edit_history::bumped(v, s);
    let sum = edit_sum::added(c.sum, edit_sum::sum_record(rec));
    Counters {
        sites: c.sites,
        records: c.records + 1,
        objects: c.objects + d,
        held,
        sum,
    }
}

// Whether 6 applies to an edit of this kind whose object has k Sets.
fn is_full(c: Counters, kind: u8, k: usize) -> bool
    ensures { result ≡ full_with c kind k }
{
    (RECORDS <= c.records as usize)
        | ((kind == CREATE) & (OBJECTS <= c.objects as usize))
        | (edit_record::is_set_kind(kind) & (SETS <= k))
}

// The first of 1 to 6, with 16 after 5, whose reason is present.
fn first_reason(
    one: bool,
    two: bool,
    three: bool,
    four: bool,
    five: bool,
    sixteen: bool,
    six: bool,
) -> Result<(), Refusal>
    ensures { answer_of result ≡ first_of in_turn (one ∷ two ∷ three ∷ four ∷ five ∷ sixteen ∷ six ∷ []) }
{
    if one {
        return Err(Refusal::Malformed);
    }
    if two {
        return Err(Refusal::Repeated);
    }
    if three {
        return Err(Refusal::Early);
    }
    if four {
        return Err(Refusal::Torn);
    }
    if five {
        return Err(Refusal::Astray);
    }
    if sixteen {
        return Err(Refusal::Nameless);
    }
    if six {
        return Err(Refusal::Full);
    }
    Ok(())
}

// How many Sets the object of an edit has by its survey; none, where its target is not held.
fn sets_of(v: Surveyed) -> usize
    ensures { result ≡ surveyed_sets v }
{
    match v.held {
        Some(h) => h.sets,
        None => 0,
    }
}

// 4 to 6, the first that applies to a record to which none of 1 to 3 is given, from the counters, the survey of the
// records and what is judged of the edit.
fn refusal(c: Counters, rec: &[u8], v: Surveyed, j: Judged) -> Result<(), Refusal>
    ensures { answer_of result ≡ first_of in_turn (to_six_by c rec.now v j) }
{
    let kind = edit_record::byte_at(rec, AT_KIND);
    let five = edit_record::is_aimed_kind(kind) & v.held.is_none();
    let six = is_full(c, kind, sets_of(v));
    first_reason(false, false, false, v.torn, five, j.nameless, six)
}

// Takes a Create that passes 1 to 6: its record, its object's entry and the counters after it.
fn take_create(
    c: Counters,
    records: &mut [u8],
    objects: &mut [u16],
    rec: &[u8],
    s: Site,
) -> Counters
    requires { (c.records < most_records)
        × (c.objects < most_objects)
        × (length records.old ≡ records_length)
        × (length objects.old ≡ objects_length)
        × (length rec.now ≡ span_of rec.now)
        × (span_of rec.now ≤ place_length)
        × (get_or c.held s.0 0 < most_records) }
    ensures { (result ≡ counted c s rec.now 1)
        × (records.new ≡ put_record records.old c.records rec.now)
        × (objects.new ≡ put_entry objects.old c.objects c.records 0 1) }
{
    put_record(records, c.records as usize, rec);
    put_object(objects, c.objects as usize, c.records);
    counted_with(c, s, rec, 1)
}

// Stores a Set on object o, which now has k Sets and g groups: its record, the entry's counts and the counters after
// it.
fn store_set(
    c: Counters,
    records: &mut [u8],
    objects: &mut [u16],
    rec: &[u8],
    s: Site,
    o: usize,
    k: u16,
    g: u16,
) -> Counters
    requires { (c.records < most_records)
        × (c.objects ≤ most_objects)
        × (o < most_objects)
        × (length records.old ≡ records_length)
        × (length objects.old ≡ objects_length)
        × (length rec.now ≡ span_of rec.now)
        × (span_of rec.now ≤ place_length)
        × (get_or c.held s.0 0 < most_records) }
    ensures { (result ≡ counted c s rec.now 0)
        × (records.new ≡ put_record records.old c.records rec.now)
        × (objects.new ≡ put_counts objects.old o k g) }
{
    put_record(records, c.records as usize, rec);
    put_counts(objects, o, k, g);
    counted_with(c, s, rec, 0)
}

// Takes a Set that passes 1 to 6, or refuses it with 7 and leaves everything as it was.
fn take_set(
    c: Counters,
    records: &mut [u8],
    objects: &mut [u16],
    groups: &mut [u64],
    rec: &[u8],
    h: Held,
    j: Judged,
    apart: bool,
) -> Result<Counters, Refusal>
    requires { Ready (tables_of c records.old objects.old groups.old) rec.now h j apart }
    ensures { outcome_of (answer_of result) (tables_of (result_unwrap_or result c) records.new objects.new groups.new)
        ≡ acceptance_of (tables_of c records.old objects.old groups.old)
        rec.now }
{
    let o = h.object;
    let k = h.sets;
    let g = objects[o * ENTRY + 2];
    let m = group_apart::step_known(groups, o, g as usize, j.conflicts, k, apart);
    if group_step::GROUPS < m {
        return Err(Refusal::Crowded);
    }
    let s = Site(edit_record::byte_at(rec, AT_SITE));
    let d = store_set(c, records, objects, rec, s, o, k as u16 + 1, m as u16);
    Ok(d)
}

// Takes a layer edit that passes 1 to 6: its record and the counters after it.
fn take_layer(c: Counters, records: &mut [u8], rec: &[u8], s: Site) -> Counters
    requires { (c.records < most_records)
        × (c.objects ≤ most_objects)
        × (length records.old ≡ records_length)
        × (length rec.now ≡ span_of rec.now)
        × (span_of rec.now ≤ place_length)
        × (get_or c.held s.0 0 < most_records) }
    ensures { (result ≡ counted c s rec.now 0)
        × (records.new ≡ put_record records.old c.records rec.now) }
{
    put_record(records, c.records as usize, rec);
    counted_with(c, s, rec, 0)
}

// An arrival, at tables that are known to be sound, as those that an arrival left are, of a record to which none of 1
// to 3 is given, with its survey v and what is judged of it, j. Where the rows are known to be apart, as those of true
// tables are, a Set without conflict is taken faster.
pub fn accept(
    c: Counters,
    records: &mut [u8],
    objects: &mut [u16],
    groups: &mut [u64],
    rec: &[u8],
    v: Surveyed,
    j: Judged,
    apart: bool,
) -> Result<Counters, Refusal>
    requires { InHand (tables_of c records.old objects.old groups.old) rec.now v j apart }
    ensures { outcome_of (answer_of result) (tables_of (result_unwrap_or result c) records.new objects.new groups.new)
        ≡ acceptance_of (tables_of c records.old objects.old groups.old)
        rec.now }
{
    refusal(c, rec, v, j)?;
    let kind = edit_record::byte_at(rec, AT_KIND);
    if edit_record::is_set_kind(kind) {
        // 5 has been given to a Set whose target is not held
        let Some(h) = v.held else {
            return Err(Refusal::Astray);
        };
        return take_set(c, records, objects, groups, rec, h, j, apart);
    }
    let s = Site(edit_record::byte_at(rec, AT_SITE));
    let d = if kind == CREATE {
        take_create(c, records, objects, rec, s)
    } else {
        take_layer(c, records, rec, s)
    };
    Ok(d)
}

// An arriving edit, any bytes, at any tables: 8, then 1 to 7 in turn, with 16 after 5, the first that applies; else the
// edit is taken. That 16 is given to no record held is tested last, with what the edit asks of the Sets held.
pub fn arrive(
    c: Counters,
    records: &mut [u8],
    objects: &mut [u16],
    groups: &mut [u64],
    rec: &[u8],
) -> Result<Counters, Refusal>
    ensures { outcome_of (answer_of result) (tables_of (result_unwrap_or result c) records.new objects.new groups.new)
        ≡ arrival_of (tables_of c records.old objects.old groups.old)
        rec.now }
{
    // what work space holds at first does not matter; zeros would be set by memset (docs/DECISIONS.md, 24)
    let mut places = [1u16; PLACES];
    if !table_soundness::is_sound_but_named(c, records, objects, groups, &mut places) {
        return Err(Refusal::Unsound);
    }
    if let Err(r) = asked::one_to_three(c, rec) {
        return Err(asked::refusal_where_named(c, records, &places, r));
    }
    let v = asked::survey(c, records, &places, rec);
    let Some(j) = judging::judge(c, records, &places, rec, v) else {
        return Err(Refusal::Unsound);
    };
    accept(c, records, objects, groups, rec, v, j, false)
}
