// The second engine at the tables (document 02, Req 07): the groups of a box from the conflicts of its Sets, with no
// arrival order, to be held against the row that the arriving step left.
#![tactic(auto)]

ghost use Rattle.std.specs.Prelude.{◌≡◌, false, ◌≤◌, length, IfOk};
ghost use Rattle.std.specs.Result.{result_unwrap_or};
ghost use Rattle.math_lists.specs.SortedLists.{Asc, any};
ghost use Rattle.edit_record.specs.Answer1.{is_limited};
ghost use Rattle.edit_history.specs.EditsHeld.{edits_of};
ghost use Rattle.edit_history.specs.Answer16.{records_named};
ghost use Rattle.edit_walk.specs.WalkForms.{Indexed};
ghost use Rattle.group_step.specs.GroupRows.{most_groups, most_sets};
ghost use Rattle.group_engine.specs.SearchForms.{Conflicts, by_masks};
ghost use Rattle.group_sight.specs.SightForms.{sets_in};
ghost use Rattle.table_drawing.specs.Tables.{tables_of};
ghost use Rattle.table_drawing.specs.AnswerNumbers.{answer_of};
ghost use Rattle.table_soundness.specs.Sound.{sound};
ghost use Rattle.table_index.specs.IndexForms.{Holds};
ghost use Rattle.table_sets.specs.KeyForms.{Tells};
ghost use Rattle.table_engine.specs.Enumeration.{most_decided, enumeration, enumeration_of};
ghost use Rattle.table_engine.specs.EngineForms.{MasksTell, sets_of, BoxIn, MaskedWhere, refusal_of};
ghost use Rattle.table_engine.specs.EngineForms.{PreparedFor, found_as};

use edit_record::{Seq, Site};
use edit_walk::PLACES;
use group_limited::BoxRows;
use group_step::{GROUPS, SETS};
use table_drawing::{Counters, Refusal};
use table_sets::by_key::KEY_CHAINS;
use table_sets::by_mask::mark_set;

// The Sets of a box that the engine decides at most.
pub const DECIDED: usize = 20;

// Puts down for each of the Sets in the k first places which of them conflict with it, where none is limited: document
// 01's conflicts are all that there are, and each Set is held against those of its key alone.
fn put_plainly(recs: &[u8], places: &[u16], k: usize, masks: &mut [u64])
    requires { (k ≤ length places.now)
        × (k ≤ most_decided)
        × (k ≤ length masks.old)
        × (any is_limited (sets_in recs.now places.now k) ≡ false)
        × Asc Tells (sets_in recs.now places.now k) }
    ensures { MasksTell k (sets_in recs.now places.now k) masks.new }
{
    let mut sets = [0u64; KEY_CHAINS];
    // what work space holds at first does not matter; zeros would be set by memset (docs/DECISIONS.md, 24)
    let mut tolds = [1u64; DECIDED];
    for i in 0..k {
        let row = mark_set(&mut sets, &mut tolds, recs, places, i);
        group_limited::put_row(masks, i, row);
    }
}

// Whether 16 is given to none of the records; and if so, puts down which Sets of the box conflict, where some may be
// limited: by the rows of the k Sets on the Create in place p, which that test leaves.
fn put_by_rows(
    c: Counters,
    recs: &[u8],
    index: &[u16],
    p: usize,
    k: usize,
    masks: &mut [u64],
) -> bool
    requires { BoxIn c recs.now index.now p k
        × (most_decided ≤ length masks.old) }
    ensures { MaskedWhere recs.now c.records k (sets_of recs.now c.records p)
        masks.new result }
{
    let mut rows = BoxRows::none();
    let named = group_named::are_named_last_in(&mut rows, recs, c.records as usize, index, p);
    if !(named & (k <= DECIDED)) {
        return named;
    }
    group_context::put_conflicts(masks, &rows.plain, &rows.contexts, k);
    named
}

// The same by whichever way does; the places of the Sets stand in `members`. What works on rows or on keys is asked for
// in two places, so that its work space is no part of that in which 16 is tested.
fn put_masks(
    c: Counters,
    recs: &[u8],
    index: &[u16],
    p: usize,
    members: &mut [u16],
    k: usize,
    masks: &mut [u64],
) -> bool
    requires { BoxIn c recs.now index.now p k
        × (most_sets ≤ length members.old)
        × (most_decided ≤ length masks.old)
        × (sets_in recs.now members.old k ≡ sets_of recs.now c.records p) }
    ensures { MaskedWhere recs.now c.records k (sets_of recs.now c.records p)
        masks.new result }
{
    let limited = group_limited::is_any_limited(recs, members, k);
    if limited & (k == DECIDED) {
        return put_by_rows(c, recs, index, p, k, masks);
    }
    if limited {
        return put_by_rows(c, recs, index, p, k, masks);
    }
    let named = group_named::are_all_named(recs, c.records as usize, index);
    if k == DECIDED {
        put_plainly(recs, members, k, masks);
        return named;
    }
    if k < DECIDED {
        put_plainly(recs, members, k, masks);
        return named;
    }
    named
}

// The k Sets of a box are decided, or refused with the first of 8, 11, 5 and 18 that applies: where 16 is given to a
// record, the output is not 32 numbers long, no such Create is held, or its box has more than 20 Sets.
fn decided(named: bool, long: usize, held: bool, k: usize) -> Result<usize, Refusal>
    ensures { (answer_of result ≡ refusal_of named long held k) × IfOk result (λ m. m ≡ k) }
{
    if !named {
        return Err(Refusal::Unsound);
    }
    if long != GROUPS {
        return Err(Refusal::NoRoom);
    }
    if !held {
        return Err(Refusal::Astray);
    }
    if DECIDED < k {
        return Err(Refusal::TooManySets);
    }
    Ok(k)
}

// What is found before the search for the box whose Create is s.q and an output of `long` numbers, at tables that are
// sound but for 16: how many Sets the box has, or why it is refused; where it is not, masks tell which of them conflict.
fn prepare_held(
    c: Counters,
    recs: &[u8],
    index: &[u16],
    s: Site,
    q: Seq,
    long: usize,
    masks: &mut [u64],
) -> Result<usize, Refusal>
    requires { Holds c recs.now
        × Indexed recs.now c.records index.now
        × (most_decided ≤ length masks.old) }
    ensures { PreparedFor (records_named recs.now c.records)
        (edits_of recs.now c.records) s q long masks.new result }
{
    let n = c.records as usize;
    let p = edit_walk::place_at(index, s, q) as usize;
    if !edit_object::is_create_in(recs, n, p, s, q) {
        let named = group_named::are_all_named(recs, n, index);
        return decided(named, long, false, 0);
    }
    let mut members = [1u16; SETS];
    let k = edit_object::put_places(&mut members, recs, n, s, q);
    let named = put_masks(c, recs, index, p, &mut members, k, masks);
    decided(named, long, true, k)
}

// The same at any tables. Apart from the search, so that the index and what that works with stand in the same room.
fn prepare(
    c: Counters,
    records: &[u8],
    objects: &[u16],
    groups: &[u64],
    site: Site,
    seq: Seq,
    long: usize,
    masks: &mut [u64],
) -> Result<usize, Refusal>
    requires { most_decided ≤ length masks.old }
    ensures { PreparedFor
        (sound (tables_of c records.now objects.now groups.now))
        (edits_of records.now c.records) site seq long masks.new result }
{
    // what work space holds at first does not matter; zeros would be set by memset (docs/DECISIONS.md, 24)
    let mut index = [1u16; PLACES];
    if !table_soundness::is_sound_but_named(c, records, objects, groups, &mut index) {
        return Err(Refusal::Unsound);
    }
    prepare_held(c, records, &index, site, seq, long, masks)
}

// The groups of the k Sets of which masks tell, ascending, with zeros after, and how many there are: 7 when more than
// 32 exist.
fn search(masks: &[u64], k: usize, out: &mut [u64]) -> Result<usize, Refusal>
    requires { (k ≤ most_decided)
        × (k ≤ length masks.now)
        × (length out.old ≡ most_groups)
        × Conflicts masks.now k }
    ensures { enumeration (answer_of result) (result_unwrap_or result 0) out.new ≡ found_as (by_masks masks.now k) out.old }
{
    let r = group_engine::enumerate(masks, k, out);
    if GROUPS < r {
        return Err(Refusal::Crowded);
    }
    Ok(r)
}

// The groups of the box whose Create is the one named, ascending, with zeros after, and how many there are; refused,
// out stays as it was: 8, then 11 unless out is 32 numbers, 5 when no such Create is held, 18 above 20 Sets, 7 when more
// than 32 groups exist.
pub fn enumerate_groups(
    c: Counters,
    records: &[u8],
    objects: &[u16],
    groups: &[u64],
    site: Site,
    seq: Seq,
    out: &mut [u64],
) -> Result<usize, Refusal>
    ensures { enumeration (answer_of result) (result_unwrap_or result 0) out.new
        ≡ enumeration_of (tables_of c records.now objects.now groups.now) site seq
        out.old }
{
    // what work space holds at first does not matter; zeros would be set by memset (docs/DECISIONS.md, 24)
    let mut masks = [1u64; DECIDED];
    let k = prepare(
        c,
        records,
        objects,
        groups,
        site,
        seq,
        out.len(),
        &mut masks,
    )?;
    search(&masks, k, out)
}
