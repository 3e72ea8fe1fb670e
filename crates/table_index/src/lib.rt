// The index of a drawing's records: where each edit stands, the number of each Create's object, and for each object how
// many Sets it has and a chain of those of each key. By it an arriving edit is surveyed without being held against
// every record: a Set is held against those of its own key alone, from the latest one back.
#![tactic(auto)]

pub mod chain;
pub mod plain;

ghost use Rattle.std.specs.Prelude.{◌≡◌, true, ◌+◌, ◌*◌, ◌≤◌, ◌<◌, length, get_or, set, replicate};
ghost use Rattle.math_lists.specs.SortedLists.{any};
ghost use Rattle.edit_record.specs.Layout.{most_sites, keys, record_length, place_length};
ghost use Rattle.edit_record.specs.RecordBytes.{decode_of};
ghost use Rattle.edit_history.specs.EditsHeld.{most_records, edits_of, is_target};
ghost use Rattle.edit_history.specs.Answers2to5.{is_torn};
ghost use Rattle.edit_history.specs.SurveyForms.{survey_of, SurveyedOf};
ghost use Rattle.edit_walk.specs.WalkForms.{places_length, Spaced, SameStarts, count_in, Indexed, in_turn_against};
ghost use Rattle.group_step.specs.GroupRows.{most_objects, most_sets};
ghost use Rattle.table_drawing.specs.declared.Counters.{Counters};
ghost use Rattle.table_index.specs.IndexForms.{number_at, chains_length, IndexOf, Holds};
ghost use Rattle.table_index.specs.IndexForms.{linked_in};

use edit_history::{Held, RECORDS, Surveyed};
use edit_record::{AT_KEY, AT_TARGET, AT_TARGET_SEQ, CREATE, PLACE, Seq, Site};
use edit_walk::PLACES;
use group_step::OBJECTS;
use table_drawing::Counters;
use table_drawing::entries::at16;

// Whether 4 is given to an edit, and whether its target is held and was seen.
#[derive(Clone, Copy)]
pub struct Aim {
    pub torn: bool,
    pub held: bool,
}

// What is found of a record to which none of 1 to 6 is given, as far as it is looked at: of a Set whether a Set of its
// object is limited, the number of its object, how many Sets that has, and which of them conflict with it by document
// 01's rule, bit i for the i-th.
#[derive(Clone, Copy)]
pub struct Looked {
    pub limited: bool,
    pub object: usize,
    pub sets: usize,
    pub conflicts: u64,
}

// Where each edit stands, the numbers of the objects of the Creates and of the Sets among those of their object, how
// many Sets each object has, and their chains.
#[derive(Drop)]
pub struct Index {
    pub places: [u16; PLACES],
    pub numbers: [u8; RECORDS],
    pub counts: [u16; OBJECTS],
    pub chains: [u8; chain::CHAINS],
}

impl Index {
    // The index of no record.
    pub fn none() -> Index
        ensures { (result.counts ≡ replicate most_objects 0) × (result.chains ≡ replicate chains_length 0) }
    {
        // zeros in all: then it is made where it is to stand, and not first elsewhere, which would take stack twice
        Index {
            places: [0u16; PLACES],
            numbers: [0u8; RECORDS],
            counts: [0u16; OBJECTS],
            chains: [0u8; chain::CHAINS],
        }
    }
}

// Puts the Set in place p, of this kind and key, into its chain of object o, and counts it.
pub fn add_set(
    p: usize,
    o: usize,
    kind: u8,
    key: u8,
    numbers: &mut [u8],
    counts: &mut [u16],
    chains: &mut [u8],
)
    requires { (p < most_records)
        × (o < most_objects)
        × (key < keys)
        × (length numbers.old ≡ most_records)
        × (length counts.old ≡ most_objects)
        × (length chains.old ≡ chains_length)
        × (get_or counts.old o 0 < most_sets) }
    ensures { (numbers.new ≡ set numbers.old p (get_or counts.old o 0))
        × (counts.new ≡ set counts.old o (get_or counts.old o 0 + 1))
        × (chains.new ≡ linked_in chains.old p o kind key) }
{
    let k = counts[o];
    numbers[p] = k as u8;
    counts[o] = k + 1;
    chain::link_set(p, o, kind, key, chains);
}

// Puts the record in place p into the index of those before it, of which m are Creates, and which has room for it; says
// how many are then. A layer edit has its place alone: it counts for no object.
pub fn add(ix: &mut Index, recs: &[u8], p: usize, m: u16) -> u16
    requires { ((c : Counters) × Holds c recs.now × (p < c.records))
        × IndexOf recs.now p ix.old.places ix.old.numbers ix.old.counts ix.old.chains
        × (m ≡ number_at recs.now p)
        × Spaced (count_in recs.now (p + 1)) ix.old.places }
    ensures { IndexOf recs.now (p + 1) ix.new.places ix.new.numbers ix.new.counts ix.new.chains
        × (result ≡ number_at recs.now (p + 1))
        × SameStarts ix.old.places ix.new.places }
{
    let at = edit_walk::spot(recs, &ix.places, p);
    ix.places[at] = p as u16;
    let kind = edit_history::kind_at(recs, p);
    if kind == CREATE {
        ix.numbers[p] = m as u8;
        return m + 1;
    }
    if !edit_record::is_set_kind(kind) {
        return m;
    }
    let q = edit_walk::target_place(recs, &ix.places, p);
    let o = ix.numbers[q as usize];
    let key = edit_record::byte_at(recs, p * PLACE + AT_KEY);
    add_set(
        p,
        o as usize,
        kind,
        key,
        &mut ix.numbers,
        &mut ix.counts,
        &mut ix.chains,
    );
    m
}

// Makes the index of the first n records.
pub fn build(ix: &mut Index, recs: &[u8], n: usize)
    requires { ((c : Counters) × Holds c recs.now × (n ≡ c.records))
        × (ix.old.counts ≡ replicate most_objects 0)
        × (ix.old.chains ≡ replicate chains_length 0) }
    ensures { IndexOf recs.now n ix.new.places ix.new.numbers ix.new.counts ix.new.chains }
{
    edit_walk::start_places(recs, n, &mut ix.places);
    let mut m: u16 = 0;
    for i in 0..n {
        m = add(ix, recs, i, m);
    }
}

// All that an arriving edit asks of the records held, where its target is held.
fn survey_held(ix: &Index, c: Counters, recs: &[u8], rec: &[u8]) -> Held
    requires { Holds c recs.now
        × (most_records * place_length ≤ length recs.now)
        × IndexOf recs.now c.records ix.now.places ix.now.numbers ix.now.counts ix.now.chains
        × (record_length ≤ length rec.now)
        × (in_turn_against c.sites c.held (decode_of rec.now) ≡ true)
        × (any (is_target (decode_of rec.now)) (edits_of recs.now c.records) ≡ true) }
    ensures { result ≡ survey_of (edits_of recs.now c.records) (decode_of rec.now) }
{
    let seq = edit_record::pair_at(rec, AT_TARGET_SEQ);
    let q = edit_walk::place_at(&ix.places, Site(rec[AT_TARGET]), Seq(seq)) as usize;
    let object = edit_record::byte_at(&ix.numbers, q) as usize;
    let sets = at16(&ix.counts, object) as usize;
    let plain = chain::marks_for(recs, c.records as usize, &ix.numbers, &ix.chains, q, rec);
    let limited = edit_record::byte_at(&ix.chains, chain::LIMITS + object) != 0;
    Held {
        object,
        sets,
        plain,
        limited,
    }
}

// What is asked first of the records held for a record to which none of 1 to 3 is given, by the index of their places.
pub fn aim_of(c: Counters, recs: &[u8], places: &[u16], rec: &[u8]) -> Aim
    requires { Holds c recs.now
        × Indexed recs.now c.records places.now
        × (record_length ≤ length rec.now)
        × (in_turn_against c.sites c.held (decode_of rec.now) ≡ true)
        × (length c.held ≡ most_sites) }
    ensures { (result.torn ≡ is_torn (edits_of recs.now c.records) (decode_of rec.now))
        × (result.held
        ≡ any (is_target (decode_of rec.now)) (edits_of recs.now c.records)) }
{
    let counts = c.held;
    let torn = edit_next::is_torn_next(&counts, recs, places, c.records as usize, rec);
    let held = edit_walk::is_target_held(&counts, recs, places, rec);
    Aim { torn, held }
}

// All that an arriving edit to which none of 1 to 3 is given asks of the records held, by the index.
pub fn survey(ix: &Index, c: Counters, recs: &[u8], rec: &[u8]) -> Surveyed
    requires { Holds c recs.now
        × (most_records * place_length ≤ length recs.now)
        × IndexOf recs.now c.records ix.now.places ix.now.numbers ix.now.counts ix.now.chains
        × (record_length ≤ length rec.now)
        × (in_turn_against c.sites c.held (decode_of rec.now) ≡ true)
        × (length c.held ≡ most_sites) }
    ensures { SurveyedOf (edits_of recs.now c.records) (decode_of rec.now) result }
{
    let a = aim_of(c, recs, &ix.places, rec);
    if !a.held {
        return Surveyed {
            torn: a.torn,
            held: None,
        };
    }
    let held = survey_held(ix, c, recs, rec);
    Surveyed {
        torn: a.torn,
        held: Some(held),
    }
}
