// The contexts of the Sets of an object (document 02, Req 06), the conflicts that they bring, and answer 16, from
// numbers alone, whose bits are the Sets in the order of their arrival. Bit j of `plain[i]` says that Sets i and j
// conflict by document 01's rule, and `ctx[i]` is the context of i. A Set that comes after them, number n, is given by
// its own numbers: bit j of `seen` says that its author had seen j, bit j of `named` that it lists j, and `limited`
// that it is of kind 3. It may come after as many Sets as an object has at most.
#![tactic(auto)]

ghost use Rattle.std.specs.Prelude.{◌≡◌, Bool, ◌&&◌, List, ℕ, suc, ◌-◌, ◌^◌, ◌≤◌, ◌<◌, length, take, get_or};
ghost use Rattle.std.specs.Int.Bits.{bit_and};
ghost use Rattle.std.specs.Int.Count.{count_trailing_zeros};
ghost use Rattle.math_lists.specs.NumbersBelow.{some, mask};
ghost use Rattle.math_maximal.specs.Groups.{bit};
ghost use Rattle.math_maximal.specs.Step.{compatible};
ghost use Rattle.math_contexts.specs.Box.{Box, Lawful};
ghost use Rattle.math_contexts.specs.Contexts.{contexts, context, conflicts};
ghost use Rattle.math_contexts.specs.MaskForms.{mask_conflicts, mask_names};
ghost use Rattle.group_step.specs.GroupRows.{most_sets};
ghost use Rattle.group_context.specs.RowForms.{meeting, reaching, conflicts_of};
ghost use Rattle.group_context.specs.RowsOfBox.{PlainRows, NextOf, what_is_left};

use group_step::SETS;

// Those of the first n Sets whose number has a member of m.
fn meeting_rows(rows: &[u64], n: usize, m: u64) -> u64
    requires { (n ≤ most_sets) × (n ≤ length rows.now) }
    ensures { result ≡ meeting rows.now n m }
{
    let mut found: u64 = 0;
    for (j, &row) in rows[..n].iter().enumerate() {
        if row & m != 0 {
            found |= group_step::only(j);
        }
    }
    found
}

// The members of m, and those of the first n Sets that have one in their context.
fn reaching_any(ctx: &[u64], n: usize, m: u64) -> u64
    requires { (n ≤ most_sets) × (n ≤ length ctx.now) }
    ensures { result ≡ reaching ctx.now n m }
{
    m | meeting_rows(ctx, n, m)
}

// Those of the first n Sets that reach one of `row`, or one that a member of c conflicts with.
fn conflicts_by(plain: &[u64], ctx: &[u64], n: usize, row: u64, c: u64) -> u64
    requires { (n ≤ most_sets) × (n ≤ length plain.now) × (n ≤ length ctx.now) }
    ensures { result ≡ conflicts_of plain.now ctx.now n row c }
{
    reaching_any(ctx, n, row | meeting_rows(plain, n, c))
}

// The Sets before Set n that conflict with it: the number that the step takes. The bits of `row` are those before it
// that it conflicts with by document 01's rule, and c is its context.
pub fn conflicts_of(plain: &[u64], ctx: &[u64], n: usize, row: u64, c: u64) -> u64
    requires { (n ≤ most_sets) × (n ≤ length plain.now) × (n ≤ length ctx.now) }
    ensures { (b : Box) (v w : ℕ) (limited : Bool) → NextOf b n plain.now ctx.now v w limited →
        row ≡ mask n (b.plain n) → c ≡ context b n → result ≡ mask_conflicts b n }
{
    let foes = foes_of(plain, c);
    let met = among_first(foes, n);
    reaching_any(ctx, n, row | met)
}

// Puts, for each of the first n Sets, those of them that conflict with it into out, be they earlier, later or itself.
pub fn put_conflicts(out: &mut [u64], plain: &[u64], ctx: &[u64], n: usize)
    requires { (n ≤ most_sets)
        × (n ≤ length out.old)
        × (n ≤ length plain.now)
        × (n ≤ length ctx.now) }
    ensures { (b : Box) → PlainRows b n plain.now → take n ctx.now ≡ contexts b n →
        (i : ℕ) → i < n → get_or out.new i 0 ≡ mask n (conflicts b i) }
{
    for i in 0..n {
        let reach = ctx[i] | group_step::only(i);
        out[i] = conflicts_by(plain, ctx, n, 0, reach);
    }
}

// The members of g among the first n Sets.
fn among_first(g: u64, n: usize) -> u64
    requires { n ≤ most_sets }
    ensures { (result < 2 ^ n) × ((j : ℕ) → j < n → bit result j ≡ bit g j) }
{
    if n < SETS {
        return g & (group_step::only(n) - 1);
    }
    g
}

// The members of g, which has some, but the first. A walk over the members need not wait for the first one's number.
pub fn but_first(g: u64) -> u64
    requires { 0 < g }
    ensures { result ≡ g - bit_and g (2 ^ count_trailing_zeros 64 g) }
{
    g & (g - 1)
}

// Row j, and 0 past their end.
fn row_at(rows: &[u64], j: usize) -> u64
    ensures { result ≡ get_or rows.now j 0 }
{
    rows.get(j).copied().unwrap_or(0)
}

// The members of v whose number has no member of m: only the numbers of these are read.
fn clear_of(rows: &[u64], v: u64, m: u64) -> u64
    ensures { (result ≤ v)
        × ((j : ℕ) → bit result j ≡ (bit v j && compatible m (get_or rows.now j 0))) }
{
    let mut kept: u64 = 0;
    let mut left = v;
    while left != 0 {
        let j = left.trailing_zeros() as usize;
        let row = row_at(rows, j);
        let rest = but_first(left);
        if row & m == 0 {
            kept |= left - rest;
        }
        left = rest;
    }
    kept
}

// The Sets that conflict with a member of m by document 01's rule: only the rows of these are read.
fn foes_of(plain: &[u64], m: u64) -> u64
    ensures { (y : ℕ) → bit result y ≡ some most_sets (λ j. bit m j && bit (get_or plain.now j 0) y) }
{
    let mut foes: u64 = 0;
    let mut left = m;
    while left != 0 {
        let j = left.trailing_zeros() as usize;
        let row = row_at(plain, j);
        foes |= row;
        left = but_first(left);
    }
    foes
}

// What a limited Set has seen that reaches no foe of what it lists: its context, if what it lists is a version of what
// it has seen. A plain Set has none.
pub fn left_of(plain: &[u64], ctx: &[u64], seen: u64, named: u64, limited: bool) -> u64
    ensures { (b : Box) (n : ℕ) → n ≤ most_sets →
        NextOf b n plain.now ctx.now seen named limited → result ≡ what_is_left b n }
{
    if !limited {
        return 0;
    }
    let foes = foes_of(plain, named);
    let apart = group_step::without(seen, foes);
    clear_of(ctx, apart, foes)
}

// Whether answer 16 does not apply to Set n, of which c is left: it is a plain Set, or what it lists is what is
// disputed of c. Then c is its context.
pub fn names_version(plain: &[u64], seen: u64, named: u64, limited: bool, c: u64) -> bool
    ensures { (b : Box) (n : ℕ) (cs : List ℕ) → NextOf b n plain.now cs seen named limited →
        c ≡ what_is_left b n → Lawful b (suc n) → result ≡ mask_names b n }
{
    if !limited {
        return true;
    }
    let calm = clear_of(plain, c, seen);
    named == group_step::without(c, calm)
}
