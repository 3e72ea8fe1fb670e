// The second engine: the groups of an object worked out with no arrival order, from the conflicts of its Sets alone.
// The Sets are decided one after another, the last first, each left out before it is taken in, so that the groups come
// in ascending order. `conflicts` has a number for each Set, whose bits are the Sets that it conflicts with.
#![tactic(auto)]

ghost use Rattle.std.specs.Prelude.{◌≡◌, true, ℕ, ◌+◌, ◌^◌, ◌≤◌, ◌<◌, length};
ghost use Rattle.math_maximal.specs.Groups.{bit};
ghost use Rattle.group_step.specs.GroupRows.{most_groups, most_sets, settled};
ghost use Rattle.group_engine.specs.SearchForms.{Conflicts, by_masks, Partial, Waiting, Stuck, FoundSoFar};
ghost use Rattle.group_engine.specs.SearchForms.{count_told};

use group_step::GROUPS;

// Whether some member of `lone` conflicts with no member of `may`. Its members are gone through from the first on; that
// none is missed is not said, for a search that goes on where it could stop finds the same.
fn is_stuck(conflicts: &[u64], lone: u64, may: u64) -> bool
    requires { (i : ℕ) → bit lone i ≡ true → i < length conflicts.now }
    ensures { result ≡ true → Stuck conflicts.now lone may }
{
    let mut left = lone;
    while left != 0 {
        let i = left.trailing_zeros() as usize;
        if may & conflicts[i] == 0 {
            return true;
        }
        left &= left - 1;
    }
    false
}

// Puts the group `taken` behind the `found` first numbers of out, if it is one, and says how many they are then: it is
// one if no Set is left out without a conflict with it. Where out is full, it is only counted.
fn put_group(
    conflicts: &[u64],
    n: usize,
    taken: u64,
    lone: u64,
    found: usize,
    out: &mut [u64],
) -> usize
    requires { (length out.old ≡ most_groups)
        × (found ≤ most_groups)
        × Partial conflicts.now n 0 taken 0
        × Waiting conflicts.now n 0 taken lone
        × FoundSoFar conflicts.now n taken found out.old }
    ensures { FoundSoFar conflicts.now n (taken + 1) result out.new }
{
    if lone != 0 {
        return found;
    }
    if found < GROUPS {
        out[found] = taken;
    }
    found + 1
}

// Decides the Sets that are left, the first ones, `undecided` of them, where the members of `first` are in and of the
// undecided those in `those` can still come in. Puts the groups that come of it behind the `found` first numbers of
// out, and says how many they are then. The last that can come in is left out, by a call, and then taken in, by going
// on. The members of `unmet` are those left out that conflict with none that is in: each needs one that can come in and
// that it conflicts with, and what can end in no group is cut off. Where out is full, the first that finds no place is
// counted, and nothing more is sought.
fn decide_rest(
    conflicts: &[u64],
    n: usize,
    undecided: usize,
    first: u64,
    those: u64,
    unmet: u64,
    found: usize,
    out: &mut [u64],
) -> usize
    requires { (n < most_sets)
        × (n ≤ length conflicts.now)
        × (length out.old ≡ most_groups)
        × (undecided ≤ n)
        × Conflicts conflicts.now n
        × Partial conflicts.now n undecided first those
        × Waiting conflicts.now n undecided first unmet
        × (found ≤ most_groups)
        × FoundSoFar conflicts.now n first found out.old }
    ensures { FoundSoFar conflicts.now n (first + 2 ^ undecided) result out.new }
{
    let mut taken = first;
    let mut may = those;
    let mut lone = unmet;
    let mut next = found;
    while may != 0 {
        let k = group_step::highest(may);
        let bit = group_step::only(k);
        let foes = conflicts[k];
        let rest = group_step::without(may, bit);
        if !is_stuck(conflicts, lone & foes | bit, rest) {
            next = decide_rest(conflicts, n, k, taken, rest, lone | bit, next, out);
        }
        if GROUPS < next {
            return next;
        }
        taken += bit;
        may = group_step::without(rest, foes);
        lone = group_step::without(lone, foes);
        if is_stuck(conflicts, lone, may) {
            return next;
        }
    }
    put_group(conflicts, n, taken, lone, next, out)
}

// Puts the groups of the n Sets ascending at the front of out, and 0 behind them; says how many they are. Where they
// are more than out holds, it says one more than that, and nothing is changed.
pub fn enumerate(conflicts: &[u64], n: usize, out: &mut [u64]) -> usize
    requires { (n < most_sets)
        × (n ≤ length conflicts.now)
        × (length out.old ≡ most_groups)
        × Conflicts conflicts.now n }
    ensures { (result ≡ count_told (by_masks conflicts.now n))
        × (out.new ≡ settled (by_masks conflicts.now n) out.old) }
{
    let mut row = [0u64; GROUPS];
    let r = decide_rest(conflicts, n, n, 0, group_step::only(n) - 1, 0, 0, &mut row);
    if GROUPS < r {
        return r;
    }
    group_step::store(out, &row, r);
    r
}
