// The Sets of an object by the places of their records, where one of them is limited to a version (document 02, Req
// 06): whether each limited one names a version, and which of the Sets held an arriving one conflicts with. The Sets
// are taken one after another, each by the rows that tell of those before it: bit j of `plain[i]` says that Sets i and
// j conflict by document 01's rule, and `ctx[i]` is the context of Set i.
#![tactic(auto)]

ghost use Rattle.std.specs.Prelude.{◌≡◌, List, [], ◌∷◌, ◌++◌, ℕ, suc, ◌^◌, ◌≤◌, ◌<◌, length, get_or};
ghost use Rattle.math_lists.specs.SortedLists.{any};
ghost use Rattle.math_contexts.specs.Box.{Lawful};
ghost use Rattle.math_contexts.specs.Contexts.{context};
ghost use Rattle.math_contexts.specs.Versions.{AllNamed};
ghost use Rattle.edit_record.specs.declared.Edit.{Edit};
ghost use Rattle.edit_record.specs.RecordBytes.{decode_of};
ghost use Rattle.edit_record.specs.Answer1.{is_limited};
ghost use Rattle.edit_causal.specs.Conflict.{box_on};
ghost use Rattle.edit_causal.specs.ConflictForms.{Proper, plain_marks};
ghost use Rattle.edit_history.specs.EditsHeld.{record_at};
ghost use Rattle.edit_history.specs.Answer16.{nameless_among};
ghost use Rattle.group_step.specs.GroupRows.{most_sets};
ghost use Rattle.group_context.specs.RowsOfBox.{what_is_left};
ghost use Rattle.group_sight.specs.SightForms.{sets_in, most_recent, NamesIn, SeesTell, SightedTo};
ghost use Rattle.group_limited.specs.LimitedForms.{SightOf, with_mark, RowsTell, ToldOf, JudgedOf};
ghost use Rattle.group_limited.specs.LimitedForms.{NamedBy};

use edit_record::{AT_KIND, LIMITED, PLACE};
use group_sight::{RECENT, list_of, marks_of, put_names};
use group_step::SETS;

// All that is asked of the Sets before a Set, and whether it is limited.
#[derive(Clone, Copy)]
pub struct Sight {
    pub plain: u64,
    pub seen: u64,
    pub named: u64,
    pub strange: bool,
    pub limited: bool,
}

// What is told of a Set by those before it: those that conflict with it by document 01's rule, those that its author
// had seen, its context, whether 16 is given to it, and those that conflict with it.
#[derive(Clone, Copy)]
pub struct Told {
    pub row: u64,
    pub seen: u64,
    pub context: u64,
    pub nameless: bool,
    pub conflicts: u64,
}

// What an arriving Set is told: whether 16 is given to it, and which of the Sets held conflict with it.
#[derive(Clone, Copy)]
pub struct Judged {
    pub nameless: bool,
    pub conflicts: u64,
}

// What is put down of the Sets of a box: their places and their names, for each those that conflict with it by document
// 01's rule and its context, and what the authors of the last of them had seen.
#[derive(Drop)]
pub struct BoxRows {
    pub members: [u16; SETS],
    pub names: [u32; SETS],
    pub plain: [u64; SETS],
    pub contexts: [u64; SETS],
    pub sees: [u64; RECENT],
}

impl BoxRows {
    // Nothing is put down yet. What work space holds at first does not matter; zeros would be set by memset
    // (docs/DECISIONS.md, 24).
    pub fn none() -> BoxRows {
        BoxRows {
            members: [1; SETS],
            names: [1; SETS],
            plain: [1; SETS],
            contexts: [1; SETS],
            sees: [1; RECENT],
        }
    }

    // What is told of the Set in place p, which comes after those in the n first places.
    pub fn told_at(&self, recs: &[u8], places: &[u16], n: usize, p: u16) -> Told
        requires { (n ≤ most_sets)
            × (n ≤ length places.now)
            × NamesIn recs.now places.now n self.now.names }
        ensures { (result.row < 2 ^ n) × SightedTo (sets_in recs.now places.now n)
            (record_at recs.now p) self.now.sees
            (RowsTell (sets_in recs.now places.now n) self.now.plain self.now.contexts →
            ToldOf (sets_in recs.now places.now n) (record_at recs.now p) result) }
    {
        let (plain, ctx) = (&self.plain, &self.contexts);
        told_at(recs, places, &self.names, &self.sees, n, plain, ctx, p)
    }

    // What the Set of rec is told, which arrives after the k first members.
    pub fn judge(&self, recs: &[u8], k: usize, rec: &[u8]) -> Judged
        requires { (k ≤ most_sets)
            × NamesIn recs.now self.now.members k self.now.names }
        ensures { RowsTell (sets_in recs.now self.now.members k) self.now.plain self.now.contexts →
            SeesTell (sets_in recs.now self.now.members k) self.now.sees →
            JudgedOf (sets_in recs.now self.now.members k) (decode_of rec.now) result }
    {
        let (members, plain, ctx) = (&self.members, &self.plain, &self.contexts);
        judge(recs, members, &self.names, &self.sees, k, plain, ctx, rec)
    }
}

// Whether one of the Sets in the k first places is limited; only their kinds are read.
pub fn is_any_limited(recs: &[u8], places: &[u16], k: usize) -> bool
    requires { k ≤ length places.now }
    ensures { result ≡ any is_limited (sets_in recs.now places.now k) }
{
    places[..k]
        .iter()
        .any(|&p| edit_history::kind_at(recs, p as usize) == LIMITED)
}

// What is asked of the Sets in the k first places, whose names these are, for that of rec, which comes after them.
fn sight_of(recs: &[u8], places: &[u16], names: &[u32], sees: &[u64], k: usize, rec: &[u8]) -> Sight
    requires { (k ≤ most_sets)
        × (k ≤ length places.now)
        × (k ≤ length names.now)
        × (most_recent ≤ length sees.now)
        × NamesIn recs.now places.now k names.now }
    ensures { (result.plain < 2 ^ k) × SightedTo (sets_in recs.now places.now k)
        (decode_of rec.now) sees.now
        (SightOf (sets_in recs.now places.now k) (decode_of rec.now) result) }
{
    let m = marks_of(recs, places, names, sees, k, rec);
    // lent on as parts: else a note of where each lies is copied before anything is done, and waited for
    let l = list_of(&names[0..], k, m.seen, &rec[0..]);
    Sight {
        plain: m.plain,
        seen: m.seen,
        named: l.named,
        strange: l.strange,
        limited: edit_record::byte_at(rec, AT_KIND) == LIMITED,
    }
}

// The same for the Set in place p.
pub fn sight_at(recs: &[u8], places: &[u16], names: &[u32], sees: &[u64], k: usize, p: u16) -> Sight
    requires { (k ≤ most_sets)
        × (k ≤ length places.now)
        × (k ≤ length names.now)
        × (most_recent ≤ length sees.now)
        × NamesIn recs.now places.now k names.now }
    ensures { (result.plain < 2 ^ k) × SightedTo (sets_in recs.now places.now k)
        (record_at recs.now p) sees.now
        (SightOf (sets_in recs.now places.now k) (record_at recs.now p) result) }
{
    let at = p as usize * PLACE;
    if at <= recs.len() {
        sight_of(recs, places, names, sees, k, &recs[at..])
    } else {
        sight_of(recs, places, names, sees, k, &recs[..0])
    }
}

// What is left of what the author of a Set had seen, by its sight of those before it, whose rows these are: its
// context, if it names a version.
pub fn left_by(plain: &[u64], ctx: &[u64], s: Sight) -> u64
    ensures { (ms : List Edit) (e : Edit) → length ms ≤ most_sets → RowsTell ms plain.now ctx.now →
        SightOf ms e s → result ≡ what_is_left (box_on (ms ++ (e ∷ []))) (length ms) }
{
    group_context::left_of(plain, ctx, s.seen, s.named, s.limited)
}

// Whether 16 is given to it, where `own` is left.
fn is_nameless(plain: &[u64], s: Sight, own: u64) -> bool
    ensures { (ms : List Edit) (e : Edit) (cs : List ℕ) → RowsTell ms plain.now cs → SightOf ms e s →
        own ≡ what_is_left (box_on (ms ++ (e ∷ []))) (length ms) →
        Lawful (box_on (ms ++ (e ∷ []))) (suc (length ms)) → AllNamed (box_on ms) (length ms) →
        result ≡ nameless_among ms e }
{
    let names = group_context::names_version(plain, s.seen, s.named, s.limited, own);
    s.limited & (s.strange | !names)
}

// What is told of a Set after the n first, whose rows these are, by its sight of them.
pub fn told_by(plain: &[u64], ctx: &[u64], n: usize, s: Sight) -> Told
    requires { (n ≤ most_sets) × (n ≤ length plain.now) × (n ≤ length ctx.now) }
    ensures { (result.row ≡ s.plain)
        × ((ms : List Edit) (e : Edit) → length ms ≡ n → RowsTell ms plain.now ctx.now →
        SightOf ms e s → Lawful (box_on (ms ++ (e ∷ []))) (suc (length ms)) → ToldOf ms e result) }
{
    let own = left_by(plain, ctx, s);
    let nameless = is_nameless(plain, s, own);
    let conflicts = group_context::conflicts_of(plain, ctx, n, s.plain, own);
    Told {
        row: s.plain,
        seen: s.seen,
        context: own,
        nameless,
        conflicts,
    }
}

// What is told of the Set in place p, which comes after those in the n first places, by their names and their rows.
pub fn told_at(
    recs: &[u8],
    places: &[u16],
    names: &[u32],
    sees: &[u64],
    n: usize,
    plain: &[u64],
    ctx: &[u64],
    p: u16,
) -> Told
    requires { (n ≤ most_sets)
        × (n ≤ length places.now)
        × (n ≤ length names.now)
        × (most_recent ≤ length sees.now)
        × (n ≤ length plain.now)
        × (n ≤ length ctx.now)
        × NamesIn recs.now places.now n names.now }
    ensures { (result.row < 2 ^ n) × SightedTo (sets_in recs.now places.now n)
        (record_at recs.now p) sees.now
        (RowsTell (sets_in recs.now places.now n) plain.now ctx.now →
        ToldOf (sets_in recs.now places.now n) (record_at recs.now p) result) }
{
    let s = sight_at(recs, places, names, sees, n, p);
    told_by(plain, ctx, n, s)
}

// Marks Set n in the numbers of those before it that are members of `row`: only these are touched.
fn mark_in_rows(plain: &mut [u64], n: usize, row: u64)
    requires { (n < most_sets) × (n ≤ length plain.old) × (row < 2 ^ n) }
    ensures { (i : ℕ) → i < n → get_or plain.new i 0 ≡ with_mark n row i (get_or plain.old i 0) }
{
    let own = group_step::only(n);
    let mut left = row;
    while left != 0 {
        let j = u64::trailing_zeros(left) as usize;
        plain[j] |= own;
        left = group_context::but_first(left);
    }
}

// Puts down the number of Set n, and marks it in those of the members of `row`.
pub fn put_row(plain: &mut [u64], n: usize, row: u64)
    requires { (n < most_sets) × (n < length plain.old) × (row < 2 ^ n) }
    ensures { ((i : ℕ) → i < n → get_or plain.new i 0 ≡ with_mark n row i (get_or plain.old i 0))
        × (get_or plain.new n 0 ≡ row) }
{
    mark_in_rows(plain, n, row);
    plain[n] = row;
}

// Puts down what is told of Set n: those before it that conflict with it by document 01's rule, and its context.
pub fn put_told(plain: &mut [u64], ctx: &mut [u64], n: usize, row: u64, own: u64)
    requires { (n < most_sets) × (n < length plain.old) × (n < length ctx.old) × (row < 2 ^ n) }
    ensures { (ms : List Edit) (e : Edit) → length ms ≡ n → RowsTell ms plain.old ctx.old →
        row ≡ plain_marks e ms → own ≡ context (box_on (ms ++ (e ∷ []))) n →
        RowsTell (ms ++ (e ∷ [])) plain.new ctx.new }
{
    put_row(plain, n, row);
    ctx[n] = own;
}

// Puts down the rows of the Sets in the k first places, whose names these are, each by those before it, and in `sees`
// what the authors of the last of them had seen.
pub fn put_rows(
    plain: &mut [u64],
    ctx: &mut [u64],
    sees: &mut [u64],
    recs: &[u8],
    places: &[u16],
    names: &[u32],
    k: usize,
)
    requires { (k ≤ most_sets)
        × (k ≤ length places.now)
        × (k ≤ length names.now)
        × (k ≤ length plain.old)
        × (k ≤ length ctx.old)
        × (most_recent ≤ length sees.old)
        × NamesIn recs.now places.now k names.now }
    ensures { Proper (sets_in recs.now places.now k) →
        RowsTell (sets_in recs.now places.now k) plain.new ctx.new
        × SeesTell (sets_in recs.now places.now k) sees.new }
{
    for i in 0..k {
        let s = sight_at(recs, places, names, sees, i, places[i]);
        let own = left_by(plain, ctx, s);
        put_told(plain, ctx, i, s.plain, own);
        sees[i % RECENT] = s.seen;
    }
}

// What the Set of rec is told, which arrives after those in the k first places, by their names and their rows.
pub fn judge(
    recs: &[u8],
    places: &[u16],
    names: &[u32],
    sees: &[u64],
    k: usize,
    plain: &[u64],
    ctx: &[u64],
    rec: &[u8],
) -> Judged
    requires { (k ≤ most_sets)
        × (k ≤ length places.now)
        × (k ≤ length names.now)
        × (most_recent ≤ length sees.now)
        × (k ≤ length plain.now)
        × (k ≤ length ctx.now)
        × NamesIn recs.now places.now k names.now }
    ensures { RowsTell (sets_in recs.now places.now k) plain.now ctx.now →
        SeesTell (sets_in recs.now places.now k) sees.now →
        JudgedOf (sets_in recs.now places.now k) (decode_of rec.now) result }
{
    let s = sight_of(recs, places, names, sees, k, rec);
    let t = told_by(plain, ctx, k, s);
    Judged {
        nameless: t.nameless,
        conflicts: t.conflicts,
    }
}

// Whether 16 is given to none of the Sets in the k first places, each after those before it, whose rows are put down,
// and in `sees` what the authors of the last of them had seen.
fn are_named_with(
    plain: &mut [u64],
    ctx: &mut [u64],
    sees: &mut [u64],
    recs: &[u8],
    places: &[u16],
    names: &[u32],
    k: usize,
) -> bool
    requires { (k ≤ most_sets)
        × (k ≤ length places.now)
        × (k ≤ length names.now)
        × (k ≤ length plain.old)
        × (k ≤ length ctx.old)
        × (most_recent ≤ length sees.old)
        × NamesIn recs.now places.now k names.now }
    ensures { Lawful (box_on (sets_in recs.now places.now k)) k →
        NamedBy (sets_in recs.now places.now k) result plain.new ctx.new
        sees.new }
{
    for i in 0..k {
        let s = sight_at(recs, places, names, sees, i, places[i]);
        let own = left_by(plain, ctx, s);
        if is_nameless(plain, s, own) {
            return false;
        }
        put_told(plain, ctx, i, s.plain, own);
        sees[i % RECENT] = s.seen;
    }
    true
}

// Whether 16 is given to none of the Sets in the k first places, each after those before it. Their names, their rows
// and what their authors had seen are put down in what is lent.
pub fn are_named(
    plain: &mut [u64],
    ctx: &mut [u64],
    sees: &mut [u64],
    names: &mut [u32],
    recs: &[u8],
    places: &[u16],
    k: usize,
) -> bool
    requires { (k ≤ most_sets)
        × (k ≤ length places.now)
        × (k ≤ length names.old)
        × (k ≤ length plain.old)
        × (k ≤ length ctx.old)
        × (most_recent ≤ length sees.old) }
    ensures { NamesIn recs.now places.now k names.new
        × (Lawful (box_on (sets_in recs.now places.now k)) k →
        NamedBy (sets_in recs.now places.now k) result plain.new ctx.new
        sees.new) }
{
    put_names(names, recs, places, k);
    are_named_with(plain, ctx, sees, recs, places, names, k)
}
