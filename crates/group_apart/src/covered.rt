// A row of which some groups conflict with the new Set and some do not. Where what remains of each that does, with the
// Set, is part of one that gains the Set as a whole, no part is left to be compared with others.
ghost use Rattle.std.specs.Prelude.{◌≡◌, true, ◌++◌, ℕ, ◌^◌, ◌≤◌, ◌<◌, length, take, drop};
ghost use Rattle.std.proofs.Math.Seq.{slice};
ghost use Rattle.math_lists.specs.SortedLists.{any, elem, Ascending};
ghost use Rattle.math_maximal.specs.Step.{step};
ghost use Rattle.group_step.specs.GroupRows.{most_groups, most_sets, settled};
ghost use Rattle.group_step.specs.StepForms.{staying, Apart, part_of, wholes, all_covered};

use group_step::{GROUPS, candidate_of, is_compatible, step_row};

// Whether each member of g is one of h.
fn is_part(g: u64, h: u64) -> bool
    ensures { result ≡ part_of g h }
{
    g & h == g
}

// Puts those of the n first groups that stay, which are t, at the front of out, and behind them what the others give,
// which gain Set k as a whole.
fn put_apart(gs: &[u64], n: usize, m: u64, k: usize, t: usize, out: &mut [u64])
    requires { (n ≤ length gs.now)
        × (n ≤ length out.old)
        × (k < most_sets)
        × (t ≤ n)
        × (t ≡ length (staying m (take n gs.now))) }
    ensures { out.new
        ≡ staying m (take n gs.now) ++ (wholes m k (take n gs.now)
        ++ drop n out.old) }
{
    let mut a: usize = 0;
    let mut w = t;
    for &g in &gs[..n] {
        if is_compatible(m, g) {
            out[w] = candidate_of(m, k, g);
            w += 1;
        } else {
            out[a] = g;
            a += 1;
        }
    }
}

// Whether x is part of one of the n first numbers of s, from place t on.
fn is_part_of_any(s: &[u64], t: usize, n: usize, x: u64) -> bool
    requires { (t ≤ n) × (n ≤ length s.now) }
    ensures { result ≡ any (part_of x) (slice t n s.now) }
{
    s[t..n].iter().any(|&y| is_part(x, y))
}

// The same, with place i tried first.
fn is_part_near(s: &[u64], t: usize, i: usize, n: usize, x: u64) -> bool
    requires { (t ≤ i) × (t ≤ n) × (n ≤ length s.now) }
    ensures { result ≡ any (part_of x) (slice t n s.now) }
{
    if i < n {
        if is_part(x, s[i]) {
            return true;
        }
    }
    is_part_of_any(s, t, n, x)
}

// Whether what remains of each of the t first numbers of s is part of one of those behind them, of the n first. The
// i-th behind them is tried first for the i-th: most often it is that one.
fn are_covered(s: &[u64], t: usize, n: usize, m: u64, k: usize) -> bool
    requires { (t ≤ n) × (n ≤ length s.now) × (n ≤ most_groups) × (k < most_sets) }
    ensures { result ≡ all_covered m k (slice t n s.now) (take t s.now) }
{
    for (i, &g) in s[..t].iter().enumerate() {
        if !is_part_near(s, t, t + i, n, candidate_of(m, k, g)) {
            return false;
        }
    }
    true
}

// The step on a row in which no group is part of a larger one, and t of the groups conflict with the new Set.
pub fn step_split(gs: &mut [u64], n: usize, m: u64, k: usize, t: usize) -> usize
    requires { (length gs.old ≡ most_groups)
        × (n ≤ most_groups)
        × (k < most_sets)
        × Ascending (take n gs.old)
        × ((x : ℕ) → elem x (take n gs.old) ≡ true → x < 2 ^ k)
        × Apart (take n gs.old)
        × (t ≤ n)
        × (t ≡ length (staying m (take n gs.old))) }
    ensures { (result ≡ length (step m k (take n gs.old)))
        × (gs.new ≡ settled (step m k (take n gs.old)) gs.old) }
{
    let mut out = [0u64; GROUPS];
    put_apart(gs, n, m, k, t, &mut out);
    if !are_covered(&out, t, n, m, k) {
        return step_row(gs, n, m, k);
    }
    gs.copy_from_slice(&out);
    n
}
