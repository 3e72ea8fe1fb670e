// What a record is asked, by the index, before it is taken: all of it in one look, where it is to be taken, and else no
// more than that.
ghost use Rattle.std.specs.Prelude.{◌≡◌, true, false, IfSome, ◌*◌, ◌≤◌, length, get_or};
ghost use Rattle.math_lists.specs.SortedLists.{any};
ghost use Rattle.edit_record.specs.Layout.{most_sites, record_length, place_length};
ghost use Rattle.edit_record.specs.RecordBytes.{decode_of};
ghost use Rattle.edit_record.specs.Answer1.{is_set};
ghost use Rattle.edit_history.specs.EditsHeld.{most_records, edits_of, is_target};
ghost use Rattle.edit_walk.specs.WalkForms.{in_turn_against, sees_all};
ghost use Rattle.table_drawing.specs.declared.Counters.{Counters};
ghost use Rattle.table_index.specs.IndexForms.{IndexOf, Holds, counters_of, MetOf, PassedOf};
ghost use Rattle.table_index.specs.IndexForms.{number_at, ChainsOf, Arriving, marks_on};

use super::{Index, Looked, chain};
use edit_next::whole;
use edit_record::{AT_KIND, AT_TARGET, AT_TARGET_SEQ, CREATE, Seq, Site, byte_at};
use group_step::{OBJECTS, SETS};
use table_drawing::entries::at16;

// What is found of a record that is no Set.
fn no_set() -> Looked
    ensures { result.limited ≡ false }
{
    Looked {
        limited: false,
        object: 0,
        sets: 0,
        conflicts: 0,
    }
}

// Those of the Sets on the Create in place q, among the first n records, that are in conflict with an arriving Set on
// it by document 01's rule, where it is known of some that they have seen all of these: they are in conflict with none.
fn marks_unless(
    all: bool,
    recs: &[u8],
    n: usize,
    numbers: &[u8],
    chains: &[u8],
    q: usize,
    rec: &[u8],
) -> u64
    requires { ((c : Counters) × Holds c recs.now × (c.records ≡ n) × Arriving c recs.now q (decode_of rec.now)
        × (all ≡ true → sees_all c.held (decode_of rec.now) ≡ true))
        × (most_records * place_length ≤ length recs.now)
        × ChainsOf recs.now n numbers.now chains.now
        × (length numbers.now ≡ most_records)
        × (get_or numbers.now q 0 ≡ number_at recs.now q)
        × (record_length ≤ length rec.now)
        × (is_set (decode_of rec.now) ≡ true) }
    ensures { result ≡ marks_on recs.now n q (decode_of rec.now) }
{
    if all {
        return 0;
    }
    chain::marks_along(recs, n, numbers, chains, q, rec)
}

// What is found of a Set that passes 1 to 5, where it is known of some that they have seen all of the first n records;
// none where its object has as many Sets as it may.
fn look_at_set(ix: &Index, all: bool, recs: &[u8], n: usize, rec: &[u8]) -> Option<Looked>
    requires { ((c : Counters) × Holds c recs.now × (c.records ≡ n)
        × (in_turn_against c.sites c.held (decode_of rec.now) ≡ true)
        × (all ≡ true → sees_all c.held (decode_of rec.now) ≡ true))
        × (most_records * place_length ≤ length recs.now)
        × IndexOf recs.now n ix.now.places ix.now.numbers ix.now.counts ix.now.chains
        × (record_length ≤ length rec.now)
        × (is_set (decode_of rec.now) ≡ true)
        × (any (is_target (decode_of rec.now)) (edits_of recs.now n) ≡ true) }
    ensures { IfSome result (MetOf recs.now n ix.now.places ix.now.numbers ix.now.counts (decode_of rec.now)) }
{
    let seq = edit_record::pair_at(rec, AT_TARGET_SEQ);
    let q = edit_walk::place_at(&ix.places, Site(rec[AT_TARGET]), Seq(seq)) as usize;
    let object = byte_at(&ix.numbers, q) as usize;
    let sets = at16(&ix.counts, object) as usize;
    if SETS <= sets {
        return None;
    }
    let limits = byte_at(&ix.chains, chain::LIMITS + object);
    let conflicts = marks_unless(all, recs, n, &ix.numbers, &ix.chains, q, rec);
    Some(Looked {
        limited: limits != 0,
        object,
        sets,
        conflicts,
    })
}

// What is found of a record that is there whole, after the first n, of which m are Creates; none where one of 1 to 6 is
// given to it.
pub fn look(
    ix: &Index,
    sites: u8,
    held: &[u16],
    recs: &[u8],
    n: usize,
    m: u16,
    rec: &[u8],
) -> Option<Looked>
    requires { Holds (counters_of sites n m held.now 0) recs.now
        × (most_records * place_length ≤ length recs.now)
        × IndexOf recs.now n ix.now.places ix.now.numbers ix.now.counts ix.now.chains
        × (record_length ≤ length rec.now)
        × (length held.now ≡ most_sites) }
    ensures { IfSome result (PassedOf sites n m recs.now ix.now.places ix.now.numbers ix.now.counts (decode_of rec.now)) }
{
    let kind = rec[AT_KIND];
    let all = whole::is_all_seen(held, recs, n, rec);
    if !whole::is_passing_with(all, sites, held, recs, &ix.places, n, rec) {
        return None;
    }
    if edit_record::is_set_kind(kind) {
        return look_at_set(ix, all, recs, n, rec);
    }
    if (kind != CREATE) | ((m as usize) < OBJECTS) {
        return Some(no_set());
    }
    None
}
