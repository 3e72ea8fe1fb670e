// A row of which no group conflicts with the new Set: each group gains the Set.
ghost use Rattle.std.specs.Prelude.{◌≡◌, ◌++◌, ◌-◌, ◌≤◌, ◌<◌, length, take, drop, replicate};
ghost use Rattle.group_step.specs.GroupRows.{most_sets};
ghost use Rattle.group_step.specs.StepForms.{gained};

use group_step::only;

// Puts Set k into each of the n first groups.
pub fn put_bit(gs: &mut [u64], n: usize, k: usize)
    requires { (n ≤ length gs.old) × (k < most_sets) }
    ensures { gs.new ≡ gained k (take n gs.old) ++ drop n gs.old }
{
    let b = only(k);
    for g in &mut gs[..n] {
        *g |= b;
    }
}

// The same, with 0 behind them.
pub fn gain(gs: &mut [u64], n: usize, k: usize)
    requires { (n ≤ length gs.old) × (k < most_sets) }
    ensures { gs.new ≡ gained k (take n gs.old) ++ replicate (length gs.old - n) 0 }
{
    put_bit(gs, n, k);
    gs[n..].fill(0);
}
