// The chains of an object's Sets, one for each key, from the latest Set back: how a Set comes into its chain, and which
// Sets of a chain are in conflict with one that arrives.
ghost use Rattle.std.specs.Prelude.{◌≡◌, true, cond, ◌+◌, ◌*◌, ◌^◌, ◌≤◌, ◌<◌, eqb, length, get_or};
ghost use Rattle.edit_record.specs.Layout.{keys, limited_kind, record_length, place_length};
ghost use Rattle.edit_record.specs.RecordBytes.{decode_of};
ghost use Rattle.edit_record.specs.Answer1.{is_set};
ghost use Rattle.edit_history.specs.EditsHeld.{most_records, record_at};
ghost use Rattle.group_step.specs.GroupRows.{most_objects};
ghost use Rattle.table_drawing.specs.declared.Counters.{Counters};
ghost use Rattle.table_index.specs.IndexForms.{number_at, chains_length, ChainsOf, Holds};
ghost use Rattle.table_index.specs.IndexForms.{linked_in, Arriving, unseen_other, marks_on};

use edit_history::RECORDS;
use edit_record::{AT_KEY, AT_KIND, AT_SEQ, AT_SITE, KEYS, LIMITED, PLACE};
use group_step::OBJECTS;

// The chains have the place of the latest Set of each object and key; then, from here on, for each Set the place of the
// one before it in its chain; and then for each object whether a Set of it is limited. 0 is none: the first record is a
// Create.
pub const LINKS: usize = OBJECTS * KEYS as usize;

pub const LIMITS: usize = LINKS + RECORDS;

pub const CHAINS: usize = LIMITS + OBJECTS;

// What the chains say of an object's limits after a Set of this kind, where they said so before.
fn limit_after(kind: u8, before: u8) -> u8
    ensures { result ≡ cond (eqb kind limited_kind) 1 before }
{
    if kind == LIMITED {
        return 1;
    }
    before
}

// Puts the Set in place p, of this kind and key, at the head of its chain of object o.
pub fn link_set(p: usize, o: usize, kind: u8, key: u8, chains: &mut [u8])
    requires { (p < most_records)
        × (o < most_objects)
        × (key < keys)
        × (length chains.old ≡ chains_length) }
    ensures { chains.new ≡ linked_in chains.old p o kind key }
{
    let at = o * KEYS as usize + key as usize;
    chains[LINKS + p] = chains[at];
    chains[at] = p as u8;
    chains[LIMITS + o] = limit_after(kind, chains[LIMITS + o]);
}

// The marks with bit k, if b holds; no mark has it yet. They may have higher ones, as a chain goes back from the latest
// Set: `marked_if` of edit_history, for marks from the lowest on, wants that they have none.
fn marked_with(b: bool, marks: u64, k: usize) -> u64
    requires { (marks + cond b (2 ^ k) 0 < 2 ^ 64) × (b ≡ true → k < 64) }
    ensures { result ≡ marks + cond b (2 ^ k) 0 }
{
    if b { marks + (1 << k) } else { marks }
}

// Whether a Set that is held is in conflict with one that arrives, of its object and its key, and shown as x.
fn is_unseen_other(held: &[u8], rec: &[u8], x: u32) -> bool
    requires { (record_length ≤ length held.now) × (record_length ≤ length rec.now) }
    ensures { result ≡ unseen_other (decode_of held.now) (decode_of rec.now) x }
{
    let y = edit_causal::shown(held[AT_KEY], edit_record::value_of(held));
    let seen = edit_record::own_entry(rec, held[AT_SITE]);
    let seq = edit_record::pair_at(held, AT_SEQ);
    !(seq <= seen) & (y != x)
}

// The same of the Set in place p.
fn is_unseen_at(recs: &[u8], p: usize, rec: &[u8], x: u32) -> bool
    requires { (p < most_records)
        × (most_records * place_length ≤ length recs.now)
        × (record_length ≤ length rec.now) }
    ensures { result ≡ unseen_other (record_at recs.now p) (decode_of rec.now) x }
{
    let at = p * PLACE;
    is_unseen_other(&recs[at..], rec, x)
}

// Those of the Sets on the Create in place q, among the first n records, that are in conflict with an arriving Set on
// it by document 01's rule: they are along the chain of its key.
pub fn marks_along(
    recs: &[u8],
    n: usize,
    numbers: &[u8],
    chains: &[u8],
    q: usize,
    rec: &[u8],
) -> u64
    requires { ((c : Counters) × Holds c recs.now × (c.records ≡ n) × Arriving c recs.now q (decode_of rec.now))
        × (most_records * place_length ≤ length recs.now)
        × ChainsOf recs.now n numbers.now chains.now
        × (length numbers.now ≡ most_records)
        × (get_or numbers.now q 0 ≡ number_at recs.now q)
        × (record_length ≤ length rec.now)
        × (is_set (decode_of rec.now) ≡ true) }
    ensures { result ≡ marks_on recs.now n q (decode_of rec.now) }
{
    let key = edit_record::byte_at(rec, AT_KEY);
    let x = edit_causal::shown(key, edit_record::value_of(rec));
    let o = edit_record::byte_at(numbers, q) as usize;
    let mut marks: u64 = 0;
    let mut p = edit_record::byte_at(chains, o * KEYS as usize + key as usize) as usize;
    // goes from place to place along the chain, and counts nothing
    while 0 < p {
        let b = is_unseen_at(recs, p, rec, x);
        let k = edit_record::byte_at(numbers, p) as usize;
        marks = marked_with(b, marks, k);
        p = edit_record::byte_at(chains, LINKS + p) as usize;
    }
    marks
}

// The same for an edit on it that may be no Set: that is in conflict with none.
pub fn marks_for(recs: &[u8], n: usize, numbers: &[u8], chains: &[u8], q: usize, rec: &[u8]) -> u64
    requires { ((c : Counters) × Holds c recs.now × (c.records ≡ n) × Arriving c recs.now q (decode_of rec.now))
        × (most_records * place_length ≤ length recs.now)
        × ChainsOf recs.now n numbers.now chains.now
        × (length numbers.now ≡ most_records)
        × (get_or numbers.now q 0 ≡ number_at recs.now q)
        × (record_length ≤ length rec.now) }
    ensures { result ≡ marks_on recs.now n q (decode_of rec.now) }
{
    if !edit_record::is_set_kind(rec[AT_KIND]) {
        return 0;
    }
    marks_along(recs, n, numbers, chains, q, rec)
}
