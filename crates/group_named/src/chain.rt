// Where the Sets of each object stand, in one byte for each record: the byte of a Create has the place of the first Set
// on it, and the byte of a Set the place of the next one on the same Create; 0 says that there is none, for the first
// record is no Set. One pass over the records makes this chain, by the index of their places.
ghost use Rattle.std.specs.Prelude.{◌≡◌, List, ℕ, ◌≤◌, ◌<◌, length, get_or, take};
ghost use Rattle.edit_history.specs.EditsHeld.{most_records};
ghost use Rattle.edit_walk.specs.WalkForms.{Indexed};
ghost use Rattle.group_step.specs.GroupRows.{most_sets};
ghost use Rattle.group_named.specs.ChainForms.{put, linked_with, Follows, TargetsHeld, ByteChained};

use edit_history::kind_at;
use edit_record::{byte_at, is_set_kind};
use group_step::SETS;

// Puts the Set in place q before those on the Create in place p that are in the chain.
fn link(chain: &mut [u8], p: usize, q: usize)
    requires { (p < length chain.old) × (q < length chain.old) × (q < most_records) }
    ensures { chain.new ≡ put chain.old p q }
{
    chain[q] = chain[p];
    chain[p] = q as u8;
}

// Puts the record in place q into the chain, if it is a Set whose Create stands before it.
fn link_record(chain: &mut [u8], recs: &[u8], places: &[u16], q: usize)
    requires { (q < length chain.old) × (q < most_records) }
    ensures { chain.new
        ≡ linked_with recs.now places.now q chain.old }
{
    let kind = kind_at(recs, q);
    let p = edit_walk::target_place(recs, places, q) as usize;
    if is_set_kind(kind) & (p < q) {
        link(chain, p, q);
    }
}

// Makes the chain of the first n records. It is made from the back, so that a Set is put before those that stand behind
// it.
pub fn chain_sets(chain: &mut [u8], recs: &[u8], n: usize, places: &[u16])
    requires { (n ≤ most_records)
        × (n ≤ length chain.old)
        × ((i : ℕ) → i < n → get_or chain.old i 0 ≡ 0) }
    ensures { Indexed recs.now n places.now → TargetsHeld recs.now n →
        ByteChained recs.now n chain.new }
{
    for q in (0..n).rev() {
        link_record(chain, recs, places, q);
    }
}

// Puts the places that the chain goes through from p at the front of out, as many as an object may have Sets; says how
// many they are.
pub fn gather_sets(out: &mut [u16], chain: &[u8], p: usize) -> usize
    requires { most_sets ≤ length out.old }
    ensures { (result ≤ most_sets)
        × ((l : List ℕ) → Follows chain.now (get_or chain.now p 0) l → length l ≤ most_sets →
        take result out.new ≡ l) }
{
    let mut at = byte_at(chain, p);
    let mut k: usize = 0;
    // goes from place to place along the chain; k bounds it
    while (at != 0) & (k < SETS) {
        out[k] = at as u16;
        k += 1;
        at = byte_at(chain, at as usize);
    }
    k
}
