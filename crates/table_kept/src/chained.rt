// The places of the Sets of one box, found along the chains that the index of the records has for it, one for each key:
// no record is read.
ghost use Rattle.std.specs.Prelude.{◌≡◌, ◌≤◌, ◌<◌, length, take};
ghost use Rattle.edit_record.specs.Layout.{keys};
ghost use Rattle.group_step.specs.GroupRows.{most_sets};
ghost use Rattle.table_index.specs.IndexForms.{places_on};
ghost use Rattle.table_kept.specs.ChainForms.{ChainsOn, PutFrom};

use edit_record::{KEYS, byte_at};
use table_index::chain::LINKS;

// Puts down, each by its number, the places of the Sets of one key on the Create in place q.
fn put_chain(
    out: &mut [u16],
    recs: &[u8],
    n: usize,
    numbers: &[u8],
    chains: &[u8],
    q: usize,
    key: usize,
)
    requires { ChainsOn recs.now n numbers.now chains.now q
        × (key < keys)
        × (most_sets ≤ length out.old) }
    ensures { PutFrom recs.now n q key 0 out.old out.new }
{
    let o = byte_at(numbers, q) as usize;
    let mut p = byte_at(chains, o * KEYS as usize + key) as usize;
    // goes from place to place along the chain, and counts nothing
    while 0 < p {
        let k = byte_at(numbers, p) as usize;
        out[k] = p as u16;
        p = byte_at(chains, LINKS + p) as usize;
    }
}

// Puts the places of all Sets on it at the front of out.
pub fn put_chains(out: &mut [u16], recs: &[u8], n: usize, numbers: &[u8], chains: &[u8], q: usize)
    requires { ChainsOn recs.now n numbers.now chains.now q × (most_sets ≤ length out.old) }
    ensures { take (length (places_on recs.now n q)) out.new ≡ places_on recs.now n q }
{
    for key in 0..KEYS as usize {
        put_chain(out, recs, n, numbers, chains, q, key);
    }
}
