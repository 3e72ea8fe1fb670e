// The separate check of document 01: whether tables are what their records give from an empty drawing. What can be
// untrue in sound tables is the rows of groups alone, so each row is worked out anew from the Sets of its object, and
// held against the table's. That tells 16 of these Sets as well, which is left out where soundness is tested.
#![tactic(auto)]

ghost use Rattle.std.specs.Prelude.{◌≡◌, true, false, [], ◌∷◌, ℕ, ◌+◌, ◌*◌, ◌^◌, ◌≤◌, ◌<◌, length, take};
ghost use Rattle.math_lists.specs.NumbersBelow.{same_list};
ghost use Rattle.math_lists.specs.SortedLists.{any, elem, Ascending};
ghost use Rattle.math_maximal.specs.Step.{step};
ghost use Rattle.math_contexts.specs.Box.{Lawful};
ghost use Rattle.edit_record.specs.Answer1.{is_limited};
ghost use Rattle.edit_causal.specs.Conflict.{box_on};
ghost use Rattle.edit_walk.specs.WalkForms.{Indexed};
ghost use Rattle.group_step.specs.GroupRows.{most_groups, most_sets, row};
ghost use Rattle.group_step.specs.StepForms.{Apart};
ghost use Rattle.group_sight.specs.SightForms.{most_recent, sets_in, NamesIn};
ghost use Rattle.table_drawing.specs.Tables.{tables_of};
ghost use Rattle.table_drawing.specs.AnswerNumbers.{answer_of};
ghost use Rattle.table_soundness.specs.SoundnessForms.{sound_but_named};
ghost use Rattle.table_sets.specs.ChainForms.{Chained};
ghost use Rattle.table_sets.specs.KeyForms.{TellsIn};
ghost use Rattle.table_check.specs.Check.{check_of};
ghost use Rattle.table_check.specs.CheckForms.{row_stands, rows_stand, groups_in, joined_with, ProperInTurn};
ghost use Rattle.table_check.specs.CheckForms.{WorkedOut, WorkedThrough};

use edit_history::RECORDS;
use edit_walk::PLACES;
use group_limited::BoxRows;
use group_sight::{RECENT, put_names};
use group_step::{GROUPS, SETS};
use table_drawing::entries::at16;
use table_drawing::{Counters, ENTRY, Refusal};
use table_sets::by_key::KEY_CHAINS;
use table_sets::by_mask::mark_set;

// Whether the g groups of object o are the r at the front of gs.
fn is_row(groups: &[u64], o: usize, g: usize, gs: &[u64], r: usize) -> bool
    requires { (o * most_groups + most_groups ≤ length groups.now)
        × (g ≤ most_groups)
        × (r ≤ length gs.now) }
    ensures { result ≡ same_list (take g (row o groups.now)) (take r gs.now) }
{
    let at = o * GROUPS;
    groups[at..at + g] == gs[..r]
}

// How many groups there are after a step, and which Sets are yet to be put into all of them.
#[derive(Clone, Copy)]
struct Stepped {
    count: usize,
    common: u64,
}

// Puts the members of m into the n first groups.
fn join_all(gs: &mut [u64], n: usize, m: u64)
    requires { n ≤ length gs.old }
    ensures { (length gs.new ≡ length gs.old)
        × (take n gs.new ≡ joined_with m (take n gs.old)) }
{
    for g in &mut gs[..n] {
        *g |= m;
    }
}

// The step for Set i, which has the conflicts m, on the n first groups with the members of `common`. A Set without
// conflict comes into every group, and waits with them for one that has conflicts.
fn step_later(gs: &mut [u64], n: usize, common: u64, m: u64, i: usize) -> Stepped
    requires { (length gs.old ≡ most_groups)
        × (n ≤ most_groups)
        × (i < most_sets)
        × Ascending (joined_with common (take n gs.old))
        × ((x : ℕ) → elem x (joined_with common (take n gs.old)) ≡ true → x < 2 ^ i)
        × Apart (joined_with common (take n gs.old)) }
    ensures { (result.count ≡ length (step m i (joined_with common (take n gs.old))))
        × (result.count ≤ most_groups →
        joined_with result.common (take result.count gs.new)
        ≡ step m i (joined_with common (take n gs.old))) }
{
    if m == 0 {
        return Stepped {
            count: n,
            common: common | group_step::only(i),
        };
    }
    join_all(gs, n, common);
    Stepped {
        count: group_apart::step_apart(gs, n, m, i),
        common: 0,
    }
}

// Makes the step for one after another of the Sets in the first k places, none of which is limited, on a row that has
// the empty group alone; says how many groups there are, or none if they are more than a row holds: once they are, they
// stay so, and the rest is left.
fn step_plainly(gs: &mut [u64], recs: &[u8], places: &[u16], k: usize) -> Option<usize>
    requires { (length gs.old ≡ most_groups)
        × (take 1 gs.old ≡ 0 ∷ [])
        × (k ≤ length places.now)
        × (k ≤ most_sets)
        × ProperInTurn recs.now places.now k
        × (any is_limited (sets_in recs.now places.now k) ≡ false)
        × TellsIn recs.now places.now k }
    ensures { WorkedOut (groups_in recs.now places.now k) gs.new result }
{
    let mut sets = [0u64; KEY_CHAINS];
    // what work space holds at first does not matter; zeros would be set by memset (docs/DECISIONS.md, 24)
    let mut tolds = [1u64; SETS];
    let mut n: usize = 1;
    let mut common: u64 = 0;
    for i in 0..k {
        let m = mark_set(&mut sets, &mut tolds, recs, places, i);
        let t = step_later(gs, n, common, m, i);
        n = t.count;
        common = t.common;
        if GROUPS < n {
            return None;
        }
    }
    join_all(gs, n, common);
    Some(n)
}

// The same where Sets may be limited: the conflicts of each are told by the rows of those before it, which are put down
// in `rows`, and by the names of all. Where 16 is given to one, it says none as well: no row is right then.
fn step_limited(
    gs: &mut [u64],
    rows: &mut BoxRows,
    recs: &[u8],
    places: &[u16],
    k: usize,
) -> Option<usize>
    requires { (length gs.old ≡ most_groups)
        × (take 1 gs.old ≡ 0 ∷ [])
        × (k ≤ length places.now)
        × (k ≤ most_sets)
        × Lawful (box_on (sets_in recs.now places.now k)) k
        × NamesIn recs.now places.now k rows.old.names }
    ensures { WorkedThrough recs.now places.now k gs.new result }
{
    let mut n: usize = 1;
    for i in 0..k {
        let t = rows.told_at(recs, places, i, places[i]);
        if t.nameless {
            return None; // no row is right
        }
        n = group_apart::step_apart(gs, n, t.conflicts, i);
        if GROUPS < n {
            return None;
        }
        group_limited::put_told(&mut rows.plain, &mut rows.contexts, i, t.row, t.context);
        rows.sees[i % RECENT] = t.seen;
    }
    Some(n)
}

// Puts the groups of the Sets in the first k places at the front of gs, by the step for one Set after another from the
// empty group; says how many they are, or none if they are more than a row holds or 16 is given to one of the Sets.
fn work_out(recs: &[u8], places: &[u16], k: usize, gs: &mut [u64]) -> Option<usize>
    requires { (k ≤ length places.now)
        × (k ≤ most_sets)
        × (length gs.old ≡ most_groups)
        × Lawful (box_on (sets_in recs.now places.now k)) k
        × TellsIn recs.now places.now k }
    ensures { WorkedThrough recs.now places.now k gs.new result }
{
    gs[0] = 0;
    if !group_limited::is_any_limited(recs, places, k) {
        return step_plainly(gs, recs, places, k);
    }
    let mut rows = BoxRows::none();
    put_names(&mut rows.names, recs, places, k);
    step_limited(gs, &mut rows, recs, places, k)
}

// Whether 16 is given to none of the Sets of object o, which are found by the chain, and its row has their groups.
fn is_row_true(
    c: Counters,
    records: &[u8],
    objects: &[u16],
    groups: &[u64],
    chain: &[u16],
    o: usize,
) -> bool
    requires { (sound_but_named (tables_of c records.now objects.now groups.now) ≡ true)
        × (o < c.objects)
        × Chained records.now c.records chain.now }
    ensures { result ≡ row_stands (tables_of c records.now objects.now groups.now) o }
{
    let at = o * ENTRY;
    let p = at16(objects, at);
    let k = at16(objects, at + 1);
    let g = at16(objects, at + 2);
    // what work space holds at first does not matter; zeros would be set by memset (docs/DECISIONS.md, 24)
    let mut members = [1u16; SETS];
    let mut gs = [1u64; GROUPS];
    table_sets::gather_sets(chain, p as usize, k as usize, &mut members);
    let Some(r) = work_out(records, &members, k as usize, &mut gs) else {
        return false;
    };
    is_row(groups, o, g as usize, &gs, r)
}

// The same of each object.
fn are_rows_true(
    c: Counters,
    records: &[u8],
    objects: &[u16],
    groups: &[u64],
    places: &[u16],
) -> bool
    requires { (sound_but_named (tables_of c records.now objects.now groups.now) ≡ true)
        × Indexed records.now c.records places.now }
    ensures { result ≡ rows_stand (tables_of c records.now objects.now groups.now) }
{
    let n = c.records as usize;
    let m = c.objects as usize;
    let mut chain = [1u16; RECORDS];
    table_sets::chain_sets(records, n, places, &mut chain);
    let mut right = true;
    for o in 0..m {
        right &= is_row_true(c, records, objects, groups, &chain, o);
    }
    right
}

// The separate check: done exactly when the tables are what their records give from an empty drawing, else unsound.
pub fn check(c: Counters, records: &[u8], objects: &[u16], groups: &[u64]) -> Result<(), Refusal>
    ensures { answer_of result
        ≡ check_of (tables_of c records.now objects.now groups.now) }
{
    let mut places = [1u16; PLACES];
    if !table_soundness::is_sound_but_named(c, records, objects, groups, &mut places) {
        return Err(Refusal::Unsound);
    }
    if are_rows_true(c, records, objects, groups, &places) {
        Ok(())
    } else {
        Err(Refusal::Unsound)
    }
}
