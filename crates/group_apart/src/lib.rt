// The step on a row of which no group is part of another, as in every row that has the groups of its Sets. Where none
// conflicts with the new Set it takes one pass; where some do, most often little more (`covered`).
#![tactic(auto)]

mod covered;
mod gaining;

ghost use Rattle.std.specs.Prelude.{◌≡◌, true, ℕ, ◌-◌, ◌*◌, ◌^◌, ◌≤◌, ◌<◌, length, take, drop, replicate};
ghost use Rattle.math_lists.specs.SortedLists.{elem, Ascending};
ghost use Rattle.math_maximal.specs.Step.{step};
ghost use Rattle.group_step.specs.GroupRows.{most_groups, most_sets, most_objects, row, put_row, settled};
ghost use Rattle.group_step.specs.StepForms.{Apart};

use group_step::GROUPS;

// The step on a row in which no group is part of a larger one, as in every row that has the groups of its Sets. If none
// of them conflicts with the new Set, then no candidate is part of a larger one, and there is nothing to look for; if
// all do, none gains the Set as a whole, and nothing can be covered.
pub fn step_apart(gs: &mut [u64], n: usize, m: u64, k: usize) -> usize
    requires { (length gs.old ≡ most_groups)
        × (n ≤ most_groups)
        × (k < most_sets)
        × Ascending (take n gs.old)
        × ((x : ℕ) → elem x (take n gs.old) ≡ true → x < 2 ^ k)
        × Apart (take n gs.old) }
    ensures { (result ≡ length (step m k (take n gs.old)))
        × (gs.new ≡ settled (step m k (take n gs.old)) gs.old) }
{
    let t = group_step::count_staying(gs, n, m);
    if t == 0 {
        gaining::gain(gs, n, k);
        return n;
    }
    if t < n {
        return covered::step_split(gs, n, m, k, t);
    }
    group_step::step_row(gs, n, m, k)
}

// The same on the row of object o, where it stands in the table.
pub fn step_apart_at(groups: &mut [u64], o: usize, n: usize, m: u64, k: usize) -> usize
    requires { (length groups.old ≡ most_objects * most_groups)
        × (o < most_objects)
        × (n ≤ most_groups)
        × (k < most_sets)
        × Ascending (take n (row o groups.old))
        × ((x : ℕ) → elem x (take n (row o groups.old)) ≡ true → x < 2 ^ k)
        × Apart (take n (row o groups.old)) }
    ensures { (result ≡ length (step m k (take n (row o groups.old))))
        × (groups.new
        ≡ put_row o groups.old
        (settled (step m k (take n (row o groups.old))) (row o groups.old))) }
{
    let from = o * GROUPS;
    let to = from + GROUPS;
    step_apart(&mut groups[from..to], n, m, k)
}

// The step for a Set without conflict on a row in which no group is part of a larger one and 0 stands behind them: each
// gains the Set, and that is all.
pub fn gain_at(groups: &mut [u64], o: usize, n: usize, k: usize)
    requires { (length groups.old ≡ most_objects * most_groups)
        × (o < most_objects)
        × (n ≤ most_groups)
        × (k < most_sets)
        × Ascending (take n (row o groups.old))
        × ((x : ℕ) → elem x (take n (row o groups.old)) ≡ true → x < 2 ^ k)
        × Apart (take n (row o groups.old))
        × (drop n (row o groups.old) ≡ replicate (most_groups - n) 0) }
    ensures { (n ≡ length (step 0 k (take n (row o groups.old))))
        × (groups.new
        ≡ put_row o groups.old
        (settled (step 0 k (take n (row o groups.old))) (row o groups.old))) }
{
    let from = o * GROUPS;
    let to = from + GROUPS;
    gaining::put_bit(&mut groups[from..to], n, k);
}

// Makes the step on the row of object o, of which it may be known that no group is part of a larger one. What is known
// is a fact about the row and not a step to run: a closure in its place would have to bring the same law.
pub fn step_known(groups: &mut [u64], o: usize, n: usize, m: u64, k: usize, apart: bool) -> usize
    requires { (length groups.old ≡ most_objects * most_groups)
        × (o < most_objects)
        × (n ≤ most_groups)
        × (k < most_sets)
        × Ascending (take n (row o groups.old))
        × ((x : ℕ) → elem x (take n (row o groups.old)) ≡ true → x < 2 ^ k)
        × (apart ≡ true → Apart (take n (row o groups.old))) }
    ensures { (result ≡ length (step m k (take n (row o groups.old))))
        × (groups.new
        ≡ put_row o groups.old
        (settled (step m k (take n (row o groups.old))) (row o groups.old))) }
{
    if apart {
        return step_apart_at(groups, o, n, m, k);
    }
    group_step::step_at(groups, o, n, m, k)
}
