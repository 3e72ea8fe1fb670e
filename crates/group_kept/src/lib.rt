// The rows of one box that has a limited Set, kept from one Set to the next: all of them in one slice, with the names
// of the Sets beside them. A Set that arrives is judged by them and then put down behind the others, so that nothing is
// worked out twice.
#![tactic(auto)]

ghost use Rattle.std.specs.Prelude.{◌≡◌, List, [], ◌∷◌, ◌++◌, ℕ, suc, ◌^◌, ◌≤◌, ◌<◌, length, get_or};
ghost use Rattle.math_contexts.specs.Box.{Lawful};
ghost use Rattle.edit_record.specs.declared.Edit.{Edit};
ghost use Rattle.edit_record.specs.RecordBytes.{decode_of};
ghost use Rattle.edit_causal.specs.Conflict.{box_on};
ghost use Rattle.edit_causal.specs.ConflictForms.{Proper, plain_marks};
ghost use Rattle.edit_history.specs.EditsHeld.{record_at};
ghost use Rattle.group_step.specs.GroupRows.{most_sets};
ghost use Rattle.group_limited.specs.LimitedForms.{SightOf};
ghost use Rattle.group_sight.specs.SightForms.{sets_in, most_recent, NamesOf, NamesIn, SightedTo};
ghost use Rattle.group_limited.specs.LimitedForms.{ToldOf, JudgedOf};
ghost use Rattle.group_kept.specs.KeptForms.{rows_length, RowsKept, NotedOf, NotedWhere};

use edit_record::{AT_KIND, LIMITED};
use group_limited::{Judged, Sight, Told, left_by, sight_at, told_by};
use group_sight::seen::seen_of;
use group_sight::{RECENT, listed_among, name_of, vector_in};
use group_step::SETS;

// Where the contexts of the Sets start among the rows, and what the authors of the last of them had seen.
const CONTEXTS: usize = SETS;

const SEES: usize = SETS + SETS;

pub const ROWS: usize = SEES + RECENT;

// What is put down of a Set: those before it that conflict with it by document 01's rule, its context, and those that
// its author had seen.
#[derive(Clone, Copy)]
pub struct Noted {
    pub row: u64,
    pub context: u64,
    pub seen: u64,
}

// Puts down the rows of Set k.
fn put_down(rows: &mut [u64], k: usize, t: Noted)
    requires { (k < most_sets) × (length rows.old ≡ rows_length) × (t.row < 2 ^ k) }
    ensures { (ms : List Edit) (e : Edit) → length ms ≡ k → RowsKept ms rows.old → NotedOf ms e t →
        RowsKept (ms ++ (e ∷ [])) rows.new }
{
    group_limited::put_row(&mut rows[..CONTEXTS], k, t.row);
    rows[CONTEXTS + k] = t.context;
    rows[SEES + k % RECENT] = t.seen;
}

// What is put down of the Set in the i-th of some places, after those in the places before it, by their names and rows.
fn noted_at(rows: &[u64], recs: &[u8], places: &[u16], names: &[u32], i: usize) -> Noted
    requires { (i < most_sets)
        × (i < length places.now)
        × (i ≤ length names.now)
        × (length rows.now ≡ rows_length)
        × NamesIn recs.now places.now i names.now }
    ensures { (result.row < 2 ^ i)
        × NotedWhere (sets_in recs.now places.now i)
        (record_at recs.now (get_or places.now i 0)) rows.now result }
{
    let s = sight_at(recs, places, names, &rows[SEES..], i, places[i]);
    let own = left_by(rows, &rows[CONTEXTS..], s);
    Noted {
        row: s.plain,
        context: own,
        seen: s.seen,
    }
}

// Puts down the rows of the Sets in the k first places, whose names these are, each by those before it.
pub fn put_rows(rows: &mut [u64], recs: &[u8], places: &[u16], names: &[u32], k: usize)
    requires { (k ≤ most_sets)
        × (k ≤ length places.now)
        × (k ≤ length names.now)
        × (length rows.old ≡ rows_length)
        × NamesIn recs.now places.now k names.now }
    ensures { Proper (sets_in recs.now places.now k) →
        RowsKept (sets_in recs.now places.now k) rows.new }
{
    for i in 0..k {
        let t = noted_at(rows, recs, places, names, i);
        put_down(rows, i, t);
    }
}

// What is asked of the k Sets with these names for that of rec, which comes after them; those that conflict with it by
// document 01's rule are known.
fn sight_with(names: &[u32], sees: &[u64], k: usize, rec: &[u8], plain: u64) -> Sight
    requires { (k ≤ most_sets) × (k ≤ length names.now) × (most_recent ≤ length sees.now) }
    ensures { (result.plain ≡ plain)
        × ((ms : List Edit) → length ms ≡ k → NamesOf names.now ms →
        plain ≡ plain_marks (decode_of rec.now) ms →
        SightedTo ms (decode_of rec.now) sees.now (SightOf ms (decode_of rec.now) result)) }
{
    let v = vector_in(rec);
    let own = name_of(rec);
    let seen = seen_of(names, sees, k, own, &v);
    if edit_record::byte_at(rec, AT_KIND) != LIMITED {
        return Sight {
            plain,
            seen,
            named: 0,
            strange: false,
            limited: false,
        };
    }
    let l = listed_among(names, k, seen, rec);
    Sight {
        plain,
        seen,
        named: l.named,
        strange: l.strange,
        limited: true,
    }
}

// What is told of it by the rows of those Sets.
fn told_with(rows: &[u64], names: &[u32], k: usize, rec: &[u8], plain: u64) -> Told
    requires { (k ≤ most_sets) × (k ≤ length names.now) × (length rows.now ≡ rows_length) }
    ensures { (result.row ≡ plain)
        × ((ms : List Edit) → length ms ≡ k → NamesOf names.now ms → RowsKept ms rows.now →
        plain ≡ plain_marks (decode_of rec.now) ms →
        Lawful (box_on (ms ++ (decode_of rec.now ∷ []))) (suc (length ms)) →
        ToldOf ms (decode_of rec.now) result) }
{
    let s = sight_with(names, &rows[SEES..], k, rec, plain);
    told_by(rows, &rows[CONTEXTS..], k, s)
}

// What the Set of rec is told, which arrives after the k Sets of which these are the names and the rows; it is put down
// behind them, if there is room for it.
pub fn judge(rows: &mut [u64], names: &mut [u32], k: usize, rec: &[u8], plain: u64) -> Judged
    requires { (k ≤ most_sets)
        × (most_sets ≤ length names.old)
        × (length rows.old ≡ rows_length)
        × (plain < 2 ^ k) }
    ensures { (ms : List Edit) → length ms ≡ k → NamesOf names.old ms →
        (Proper ms → RowsKept ms rows.old) → plain ≡ plain_marks (decode_of rec.now) ms →
        JudgedOf ms (decode_of rec.now) result
        × (k < most_sets →
        NamesOf names.new (ms ++ (decode_of rec.now ∷ []))
        × (Proper (ms ++ (decode_of rec.now ∷ [])) →
        RowsKept (ms ++ (decode_of rec.now ∷ [])) rows.new)) }
{
    let t = told_with(rows, names, k, rec, plain);
    if k < SETS {
        names[k] = name_of(rec);
        put_down(
            rows,
            k,
            Noted {
                row: t.row,
                context: t.context,
                seen: t.seen,
            },
        );
    }
    Judged {
        nameless: t.nameless,
        conflicts: t.conflicts,
    }
}
