// When tables are sound, whatever stands in them: the records walked once, then the counts, the objects and the unused
// entries.
#![tactic(auto)]

mod gathering;
mod objects;
mod unused;

ghost use Rattle.std.specs.Prelude.{◌≡◌, true, ◌&&◌, ◌*◌, ◌≤◌, eqb, leb, get_or, length};
ghost use Rattle.math_lists.specs.NumbersBelow.{all, sum};
ghost use Rattle.group_step.specs.GroupRows.{most_objects, most_groups};
ghost use Rattle.edit_record.specs.Layout.{most_sites, place_length};
ghost use Rattle.edit_history.specs.EditsHeld.{most_records};
ghost use Rattle.edit_walk.specs.WalkForms.{places_length, Indexed};
ghost use Rattle.table_drawing.specs.Tables.{entry_length, tables_of, lengths_right};
ghost use Rattle.table_soundness.specs.Sound.{within_limits, zero_from, sound};
ghost use Rattle.table_soundness.specs.SoundnessForms.{sound_but_named, PassedOver};

use edit_history::RECORDS;
use edit_record::{PLACE, SITES};
use edit_walk::PLACES;
use group_step::{GROUPS, OBJECTS};
use table_drawing::{Counters, ENTRY};

// What one pass over the records gathers, where all of them are right: how many edits of each site they are, the sum of
// their words and how many of them are Creates.
#[derive(Clone, Copy)]
pub struct Tally {
    pub held: [u16; SITES],
    pub sum: u32,
    pub creates: u16,
}

// Whether the counters are within their limits.
fn within_limits(c: Counters) -> bool
    ensures { result ≡ within_limits c }
{
    table_drawing::sites_right(c.sites)
        & (c.records as usize <= RECORDS)
        & (c.objects as usize <= OBJECTS)
}

// Whether the index has room for so many edits of each site.
fn is_room_enough(counts: [u16; SITES]) -> bool
    ensures { result ≡ leb (sum most_sites (λ s. get_or counts s 0)) most_records }
{
    let total = edit_causal::vector_sum(counts);
    total as usize <= RECORDS
}

// Whether every entry past n records and m objects is zero.
fn unused_zero(records: &[u8], objects: &[u16], groups: &[u64], n: usize, m: usize) -> bool
    requires { (n ≤ most_records) × (m ≤ most_objects) }
    ensures { result ≡ (zero_from records.now (n * place_length)
        && zero_from objects.now (m * entry_length)
        && zero_from groups.now (m * most_groups)) }
{
    let a = unused::is_zero_from8(records, n * PLACE);
    let b = unused::is_zero_from16(objects, m * ENTRY);
    let d = unused::is_zero_from64(groups, m * GROUPS);
    a & b & d
}

// Whether tables within their limits whose records are right are sound but for 16, by what the pass over the records
// gathered.
fn rest_sound(
    c: Counters,
    g: Tally,
    earlier: &[u8],
    tallies: &[u8],
    records: &[u8],
    objects: &[u16],
    groups: &[u64],
) -> bool
    requires { PassedOver (tables_of c records.now objects.now groups.now) g earlier.now tallies.now }
    ensures { result ≡ sound_but_named (tables_of c records.now objects.now groups.now) }
{
    let n = c.records as usize;
    let m = c.objects as usize;
    let agree = c.held == g.held;
    let each = objects::objects_sound(records, n, objects, groups, earlier, tallies, m);
    let zero = unused_zero(records, objects, groups, n, m);
    agree & (c.sum == g.sum) & (m == g.creates as usize) & each & zero
}

// Whether tables of the right lengths and within their limits are sound but for 16; if they are, places is the index of
// their records. Each object is tested by what one pass over the records gathers, so that none is held against every
// record.
fn is_sound_within(
    c: Counters,
    records: &[u8],
    objects: &[u16],
    groups: &[u64],
    places: &mut [u16],
) -> bool
    requires { (lengths_right records.now objects.now groups.now ≡ true)
        × (within_limits c ≡ true)
        × (sum most_sites (λ s. get_or c.held s 0) ≤ most_records)
        × (length places.old ≡ places_length) }
    ensures { (result ≡ sound_but_named (tables_of c records.now objects.now groups.now))
        × (result ≡ true → Indexed records.now c.records places.new) }
{
    let given = c.held;
    let n = c.records as usize;
    let mut earlier = [0u8; RECORDS];
    let mut tallies = [0u8; RECORDS];
    let Some(g) = gathering::gather(
        c.sites,
        given,
        records,
        n,
        places,
        &mut earlier,
        &mut tallies,
    ) else {
        return false;
    };
    rest_sound(c, g, &earlier, &tallies, records, objects, groups)
}

// Whether the tables are sound but for 16, whatever stands in them; if they are, places is the index of their records,
// which has room by the counts that are given. For callers that test 16 as they work with the Sets of an object. Apart
// from the test of 16, so that what is gathered and what that works with stand in the same room.
pub fn is_sound_but_named(
    c: Counters,
    records: &[u8],
    objects: &[u16],
    groups: &[u64],
    places: &mut [u16],
) -> bool
    requires { length places.old ≡ places_length }
    ensures { (result ≡ sound_but_named (tables_of c records.now objects.now groups.now))
        × (result ≡ true → Indexed records.now c.records places.new) }
{
    if !table_drawing::lengths_right(records.len(), objects.len(), groups.len()) {
        return false;
    }
    if !within_limits(c) {
        return false;
    }
    let given = c.held;
    if !is_room_enough(given) {
        return false;
    }
    is_sound_within(c, records, objects, groups, places)
}

// Whether the tables are sound, whatever stands in them; if they are, places is the index of their records.
pub fn is_sound_with(
    c: Counters,
    records: &[u8],
    objects: &[u16],
    groups: &[u64],
    places: &mut [u16],
) -> bool
    requires { length places.old ≡ places_length }
    ensures { (result ≡ sound (tables_of c records.now objects.now groups.now))
        × (result ≡ true → Indexed records.now c.records places.new) }
{
    if !is_sound_but_named(c, records, objects, groups, places) {
        return false;
    }
    group_named::are_all_named(records, c.records as usize, places)
}

// Whether the tables are sound, whatever stands in them.
pub fn is_sound(c: Counters, records: &[u8], objects: &[u16], groups: &[u64]) -> bool
    ensures { result ≡ sound (tables_of c records.now objects.now groups.now) }
{
    // what work space holds at first does not matter; zeros would be set by memset (docs/DECISIONS.md, 24)
    let mut places = [1u16; PLACES];
    is_sound_with(c, records, objects, groups, &mut places)
}
