// The Sets of an object by their keys, those of each key as one number. Only Sets of one key conflict, so each is held
// against the members of its key's number alone; its bytes are read where they stand.
ghost use Rattle.std.specs.Prelude.{◌≡◌, true, ℕ, ◌+◌, ◌≤◌, ◌<◌, length};
ghost use Rattle.math_lists.specs.NumbersBelow.{mask};
ghost use Rattle.math_maximal.specs.Groups.{bit};
ghost use Rattle.edit_record.specs.Layout.{keys, record_length};
ghost use Rattle.edit_causal.specs.Conflict.{do_conflict};
ghost use Rattle.edit_causal.specs.ConflictForms.{plain_marks};
ghost use Rattle.group_step.specs.GroupRows.{most_sets};
ghost use Rattle.group_sight.specs.SightForms.{sets_in};
ghost use Rattle.table_sets.specs.FieldForms.{HasFields};
ghost use Rattle.table_sets.specs.KeyForms.{set_at, chain_of, Tells, TellsIn, ToldAs, DisputedBy};
ghost use Rattle.table_sets.specs.MaskForms.{SetsOf, ToldTo, MaskedTo};

use super::by_key::{KEY_CHAINS, is_unlike, told_of};
use super::copied::copy_at;
use edit_record::{AT_KEY, KEYS, PLACE, RECORD};
use group_context::but_first;
use group_step::only;

// Which of the Sets before the i-th conflict with it, bit j for the j-th, where it has these bytes and is told as y;
// `sets` has those of its key.
fn marks_among(
    recs: &[u8],
    places: &[u16],
    tolds: &[u64],
    i: usize,
    sets: u64,
    y: u64,
    rec: &[u8],
) -> u64
    requires { (i < most_sets)
        × (i ≤ length tolds.now)
        × ToldTo recs.now places.now i tolds.now
        × SetsOf recs.now places.now (chain_of (set_at recs.now places.now i)) i sets
        × ToldAs y (set_at recs.now places.now i)
        × HasFields rec.now (set_at recs.now places.now i)
        × (record_length ≤ length rec.now)
        × ((j : ℕ) → j < i → Tells (set_at recs.now places.now j) (set_at recs.now places.now i)) }
    ensures { result ≡ mask i (λ j. do_conflict (set_at recs.now places.now j)
        (set_at recs.now places.now i)) }
{
    let mut marks: u64 = 0;
    let mut left = sets;
    while left != 0 {
        let j = u64::trailing_zeros(left) as usize;
        let rest = but_first(left);
        if is_unlike(tolds[j], y, rec) {
            marks |= left - rest;
        }
        left = rest;
    }
    marks
}

// Which of the Sets before the i-th, which has these bytes, conflict with it by document 01's rule; puts it among those
// of its key.
fn mark_bytes(
    sets: &mut [u64],
    tolds: &mut [u64],
    recs: &[u8],
    places: &[u16],
    i: usize,
    rec: &[u8],
) -> u64
    requires { (i < most_sets)
        × (i < length places.now)
        × (keys ≤ length sets.old)
        × (i < length tolds.old)
        × MaskedTo recs.now places.now i sets.old tolds.old
        × HasFields rec.now (set_at recs.now places.now i)
        × (record_length ≤ length rec.now)
        × ((j : ℕ) → j < i → Tells (set_at recs.now places.now j) (set_at recs.now places.now i)) }
    ensures { (result ≡ plain_marks (set_at recs.now places.now i)
        (sets_in recs.now places.now i))
        × MaskedTo recs.now places.now (i + 1) sets.new tolds.new }
{
    let key = rec[AT_KEY];
    let k = (key % KEYS) as usize;
    let own = sets[k];
    let y = told_of(rec, key);
    let m = marks_among(recs, places, tolds, i, own, y, rec);
    tolds[i] = y;
    sets[k] = own | only(i);
    m
}

// The same, and its bytes are copied out of the table first.
pub fn mark_set(sets: &mut [u64], tolds: &mut [u64], recs: &[u8], places: &[u16], i: usize) -> u64
    requires { (i < most_sets)
        × (i < length places.now)
        × (keys ≤ length sets.old)
        × (i < length tolds.old)
        × MaskedTo recs.now places.now i sets.old tolds.old
        × ((j : ℕ) → j < i → Tells (set_at recs.now places.now j) (set_at recs.now places.now i)) }
    ensures { (result ≡ plain_marks (set_at recs.now places.now i)
        (sets_in recs.now places.now i))
        × MaskedTo recs.now places.now (i + 1) sets.new tolds.new }
{
    let rec = copy_at(recs, places[i]);
    mark_bytes(sets, tolds, recs, places, i, &rec)
}

// The same, and its bytes are read where they stand, if all of them are there.
fn mark_in_place(sets: &mut [u64], tolds: &mut [u64], recs: &[u8], places: &[u16], i: usize) -> u64
    requires { (i < most_sets)
        × (i < length places.now)
        × (keys ≤ length sets.old)
        × (i < length tolds.old)
        × MaskedTo recs.now places.now i sets.old tolds.old
        × ((j : ℕ) → j < i → Tells (set_at recs.now places.now j) (set_at recs.now places.now i)) }
    ensures { (result ≡ plain_marks (set_at recs.now places.now i)
        (sets_in recs.now places.now i))
        × MaskedTo recs.now places.now (i + 1) sets.new tolds.new }
{
    let at = places[i] as usize * PLACE;
    let end = at + RECORD;
    if end <= recs.len() {
        return mark_bytes(sets, tolds, recs, places, i, &recs[at..end]);
    }
    mark_set(sets, tolds, recs, places, i)
}

// Which of the t Sets are in dispute, bit i for the i-th; `tolds` is work space.
pub fn disputed_in(tolds: &mut [u64], recs: &[u8], places: &[u16], t: usize) -> u64
    requires { (t ≤ length places.now)
        × (t ≤ most_sets)
        × (t ≤ length tolds.old)
        × TellsIn recs.now places.now t }
    ensures { DisputedBy recs.now places.now t result
        × ((j : ℕ) → bit result j ≡ true → j < t) }
{
    let mut sets = [0u64; KEY_CHAINS];
    let mut all: u64 = 0;
    for i in 0..t {
        let m = mark_in_place(&mut sets, tolds, recs, places, i);
        if m != 0 {
            all |= m | (1 << i);
        }
    }
    all
}
