// Answer 16 over a whole table of records (document 02, Req 06): whether it is given to none of them, each after those
// before it. The Sets of an object are tested together, by the places of their records, and only where one of them is
// limited; where no record is, one pass over the kinds is all that it costs.
#![tactic(auto)]

mod chain;

ghost use Rattle.std.specs.Prelude.{◌≡◌, true, ℕ, ◌≤◌, ◌<◌, length};
ghost use Rattle.math_lists.specs.NumbersBelow.{all};
ghost use Rattle.math_lists.specs.SortedLists.{any};
ghost use Rattle.edit_record.specs.Layout.{most_sites};
ghost use Rattle.edit_record.specs.Answer1.{is_limited};
ghost use Rattle.edit_record.specs.declared.Site.{Site};
ghost use Rattle.edit_record.specs.declared.Seq.{Seq};
ghost use Rattle.edit_history.specs.EditsHeld.{most_records, edits_of, sets_on};
ghost use Rattle.edit_history.specs.Answers2to5.{records_pass};
ghost use Rattle.edit_history.specs.Answer16.{records_named};
ghost use Rattle.edit_walk.specs.WalkForms.{Indexed};
ghost use Rattle.group_step.specs.GroupRows.{most_sets};
ghost use Rattle.group_sight.specs.SightForms.{most_recent};
ghost use Rattle.group_named.specs.ChainForms.{ByteChained};
ghost use Rattle.group_named.specs.NamedForms.{FewSets, LawfulSets, is_named_at, swap_of, BoxTold};

use edit_history::RECORDS;
use edit_record::{CREATE, LIMITED};
use group_limited::BoxRows;

// Whether one of the first n records is a limited Set; only the kinds are read.
fn is_limited_held(recs: &[u8], n: usize) -> bool
    requires { n ≤ most_records }
    ensures { result ≡ any is_limited (edits_of recs.now n) }
{
    (0..n).any(|p| edit_history::kind_at(recs, p) == LIMITED)
}

// The number i, where a and b have changed places.
fn swapped(i: usize, a: usize, b: usize) -> usize
    ensures { result ≡ swap_of a b i }
{
    if i == a {
        return b;
    }
    if i == b {
        return a;
    }
    i
}

// Whether 16 is given to none of the Sets on the Create in place p, which the chain goes through, each after those
// before it; there is nothing to ask of another edit. Where the rows of these Sets are asked for, they are put down in
// any case, as they else are only where one of them is limited.
fn are_named_at(
    members: &mut [u16],
    plain: &mut [u64],
    ctx: &mut [u64],
    sees: &mut [u64],
    names: &mut [u32],
    recs: &[u8],
    n: usize,
    chain: &[u8],
    p: usize,
    asked: bool,
) -> bool
    requires { (n ≤ most_records)
        × (p < n)
        × FewSets (edits_of recs.now n)
        × (most_sets ≤ length members.old)
        × (most_sets ≤ length plain.old)
        × (most_sets ≤ length ctx.old)
        × (most_recent ≤ length sees.old)
        × (most_sets ≤ length names.old) }
    ensures { ByteChained recs.now n chain.now → LawfulSets (edits_of recs.now n) →
        (result ≡ is_named_at recs.now n p)
        × (asked ≡ true → result ≡ true → BoxTold recs.now n p members.new names.new
        plain.new ctx.new sees.new) }
{
    if edit_history::kind_at(recs, p) != CREATE {
        return true;
    }
    let k = chain::gather_sets(members, chain, p);
    let limited = group_limited::is_any_limited(recs, members, k);
    if !(limited | asked) {
        return true;
    }
    group_limited::are_named(plain, ctx, sees, names, recs, members, k)
}

// The same for each of the first n records, with that in place `last` as the last: what is put down tells of its Sets.
fn are_named_each(
    members: &mut [u16],
    plain: &mut [u64],
    ctx: &mut [u64],
    sees: &mut [u64],
    names: &mut [u32],
    recs: &[u8],
    n: usize,
    chain: &[u8],
    last: usize,
) -> bool
    requires { (n ≤ most_records)
        × (last < n)
        × FewSets (edits_of recs.now n)
        × (most_sets ≤ length members.old)
        × (most_sets ≤ length plain.old)
        × (most_sets ≤ length ctx.old)
        × (most_recent ≤ length sees.old)
        × (most_sets ≤ length names.old) }
    ensures { ByteChained recs.now n chain.now → LawfulSets (edits_of recs.now n) →
        (result ≡ all n (is_named_at recs.now n))
        × (result ≡ true → BoxTold recs.now n last members.new names.new
        plain.new ctx.new sees.new) }
{
    let end = n - 1;
    let mut named = true;
    for i in 0..n {
        let p = swapped(i, end, last);
        let own = are_named_at(
            members,
            plain,
            ctx,
            sees,
            names,
            recs,
            n,
            chain,
            p,
            i == end,
        );
        named &= own;
    }
    named
}

// Whether 16 is given to none of the first n records, each after those before it, where they pass 1 to 5 in their order
// and `places` is their index; the rows of the Sets on the Create in place `last` are left in what is lent.
pub fn are_named_last(
    members: &mut [u16],
    plain: &mut [u64],
    ctx: &mut [u64],
    sees: &mut [u64],
    names: &mut [u32],
    recs: &[u8],
    n: usize,
    places: &[u16],
    last: usize,
) -> bool
    requires { (n ≤ most_records)
        × (last < n)
        × FewSets (edits_of recs.now n)
        × (most_sets ≤ length members.old)
        × (most_sets ≤ length plain.old)
        × (most_sets ≤ length ctx.old)
        × (most_recent ≤ length sees.old)
        × (most_sets ≤ length names.old) }
    ensures { (sites : ℕ) → sites ≤ most_sites → records_pass sites recs.now n ≡ true →
        Indexed recs.now n places.now → (result ≡ records_named recs.now n)
        × (result ≡ true → BoxTold recs.now n last members.new names.new
        plain.new ctx.new sees.new) }
{
    let mut chain = [0u8; RECORDS];
    chain::chain_sets(&mut chain, recs, n, places);
    are_named_each(members, plain, ctx, sees, names, recs, n, &chain, last)
}

// The same with the rows in a struct.
pub fn are_named_last_in(
    rows: &mut BoxRows,
    recs: &[u8],
    n: usize,
    places: &[u16],
    last: usize,
) -> bool
    requires { (n ≤ most_records)
        × (last < n)
        × FewSets (edits_of recs.now n) }
    ensures { (sites : ℕ) → sites ≤ most_sites → records_pass sites recs.now n ≡ true →
        Indexed recs.now n places.now → (result ≡ records_named recs.now n)
        × (result ≡ true → BoxTold recs.now n last rows.new.members rows.new.names
        rows.new.plain rows.new.contexts rows.new.sees) }
{
    are_named_last(
        &mut rows.members,
        &mut rows.plain,
        &mut rows.contexts,
        &mut rows.sees,
        &mut rows.names,
        recs,
        n,
        places,
        last,
    )
}

// The same where no rows are asked for.
pub fn are_all_named(recs: &[u8], n: usize, places: &[u16]) -> bool
    requires { (n ≤ most_records)
        × ((s : Site) (q : Seq) → length (sets_on s q (edits_of recs.now n)) ≤ most_sets) }
    ensures { (sites : ℕ) → sites ≤ most_sites → records_pass sites recs.now n ≡ true →
        Indexed recs.now n places.now → result ≡ records_named recs.now n }
{
    if !is_limited_held(recs, n) {
        return true;
    }
    are_named_last_in(&mut BoxRows::none(), recs, n, places, n - 1)
}
