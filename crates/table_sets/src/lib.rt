// Where the Sets of each object stand, in one array of as many entries as there are records: the entry of a Create has
// the place of the first Set on it, and the entry of a Set the place of the next one on the same Create. One pass over
// the records makes this chain; then the Sets of an object are found without a look at those of others.
#![tactic(auto)]

pub mod by_key;
pub mod by_mask;
pub mod copied;

ghost use Rattle.std.specs.Prelude.{◌≡◌, ◌≤◌, ◌<◌, length, get_or, set};
ghost use Rattle.edit_history.specs.EditsHeld.{most_records};
ghost use Rattle.edit_walk.specs.WalkForms.{Indexed};
ghost use Rattle.table_soundness.specs.SoundnessForms.{Targeted};
ghost use Rattle.table_sets.specs.ChainForms.{Chained, AlongChain};

use table_drawing::entries::at16;

// Puts the Set in place q before those on the Create in place p that are in the chain.
fn link(chain: &mut [u16], p: usize, q: usize)
    requires { (p < length chain.old) × (q < length chain.old) × (q < most_records) }
    ensures { chain.new ≡ set (set chain.old q (get_or chain.old p 0)) p q }
{
    chain[q] = chain[p];
    chain[p] = q as u16;
}

// Makes the chain of the first n records, by the index of their places. It is made from the back, so that a Set is put
// before those that stand behind it. The chain of bytes in group_named wants zeros at first, since it has to tell its
// own end: here an object's entry says how many Sets there are, so that what it holds at first does not matter.
pub fn chain_sets(recs: &[u8], n: usize, places: &[u16], chain: &mut [u16])
    requires { (n ≤ most_records)
        × (n ≤ length chain.old)
        × Indexed recs.now n places.now
        × Targeted recs.now n }
    ensures { Chained recs.now n chain.new }
{
    for q in (0..n).rev() {
        let kind = edit_history::kind_at(recs, q);
        if edit_record::is_set_kind(kind) {
            let p = edit_walk::target_place(recs, places, q);
            link(chain, p as usize, q);
        }
    }
}

// Puts the k places that the chain goes through from p, a Create's, at the front of members.
pub fn gather_sets(chain: &[u16], p: usize, k: usize, members: &mut [u16])
    requires { k ≤ length members.old }
    ensures { AlongChain chain.now p k members.new }
{
    let mut at = p;
    for member in &mut members[..k] {
        let next = at16(chain, at);
        *member = next;
        at = next as usize;
    }
}
