// The walk over the sets.
ghost use Rattle.std.specs.Prelude.{◌≡◌, [], ◌∷◌, ◌<◌, ◌≤◌, ◌^◌, T, leb, length, drop};
ghost use Rattle.order.specs.Lists.{rows_of};
ghost use Rattle.columns.specs.Columns.{size, columns_of};
ghost use Rattle.method.specs.Method.{critical_value};
ghost use Rattle.masks.specs.Marks.{holding};
ghost use Rattle.putback.specs.Internal.{Going, At, better, sets_of, unite, hopeless_in};

use super::branch;
use super::branch::Branch;
use masks::{Bound, Table};

// A value, and the set that gave it first.
#[derive(Clone, Copy)]
pub struct Best {
    pub value: f64,
    pub set: u32,
}

// The best so far, how many rows are marked by its value, and whether the last set rose.
#[derive(Clone, Copy)]
pub struct Held {
    pub best: Best,
    pub n: usize,
    pub risen: bool,
}

// The better of what is held and c of the columns of `set`, which is worked out only where it is larger.
pub(crate) fn leaf(
    table: Table<'_>,
    work: &mut [f64],
    kept: &mut [u16],
    marks: &mut [u32],
    e: usize,
    set: u32,
    held: Held,
) -> Held
    requires { Going table.values.now table.rows table.columns table.k e work.old kept.old marks.old held × (set < 2 ^ table.columns) × (table.k ≤ size (columns_of table.columns set)) }
    ensures { (result.best ≡ better (λ K. critical_value table.entry.k e (rows_of table.entry.rows table.entry.columns table.entry.values.now) K) held.best (columns_of table.entry.columns set ∷ [])) × (drop table.entry.rows work.new ≡ drop table.entry.rows work.old) × Going table.entry.values.now table.entry.rows table.entry.columns table.entry.k e work.new kept.new marks.new result }
{
    let n = held.n;
    if masks::count_holding(&marks[..n], set, table.k) <= e {
        return Held {
            risen: false,
            ..held
        };
    }
    let c = critical::raised(
        table,
        work,
        &kept[..n],
        &marks[..n],
        e,
        set,
        held.best.value,
    );
    let m = masks::mark(table, kept, marks, n, Bound::Above(c));
    Held {
        best: Best { value: c, set },
        n: m,
        risen: true,
    }
}

// Whether no more than e rows have k columns of all those of a branch together above the best value.
fn few_in_all(marks: &[u32], k: usize, e: usize, b: Branch) -> bool
    requires { (0 < k) × (k ≤ 4) × (length marks.now ≤ 4096) × (b.from < 32) × (unite b < 2 ^ 32) }
    ensures { result ≡ leb (holding k (unite b) marks.now) e }
{
    let all = b.set + b.rest * masks::bit(b.from);
    masks::count_holding(marks, all, k) <= e
}

// Whether no set of a branch can rise: a row counts only if it has all of k but those to be chosen in `set`, and k in all columns together.
fn hopeless(marks: &[u32], k: usize, e: usize, b: Branch) -> bool
    requires { (k ≤ 4) × (b.left < k) × (length marks.now ≤ 4096) × (b.from < 32) × (unite b < 2 ^ 32) }
    ensures { result ≡ hopeless_in k e marks.now b }
{
    masks::count_holding(marks, b.set, k - b.left) <= e || few_in_all(marks, k, e, b)
}

// Whether the column before the next one is in `set`, as it is where it has just been chosen. It only tells when a look pays.
fn just_chosen(b: Branch) -> bool
    requires { b.from < 32 }
{
    b.from == 0 || b.set / masks::bit(b.from - 1) % 2 == 1
}

// Whether a branch is left; not always where it could be. The look by `set` is made where a column was just chosen or the last set rose; with one column to choose
// both looks are made only where the last set rose, since each set is then counted anyway.
fn left_out(marks: &[u32], k: usize, e: usize, b: Branch, risen: bool) -> bool
    requires { (k ≤ 4) × (b.left < k) × (length marks.now ≤ 4096) × (b.from < 32) × (unite b < 2 ^ 32) }
    ensures { T result → T (hopeless_in k e marks.now b) }
{
    if !risen {
        if b.left == 1 {
            return false;
        }
        if !just_chosen(b) {
            return few_in_all(marks, k, e, b);
        }
    }
    hopeless(marks, k, e, b)
}

// The better of what is held and the sets of the branch: one column is chosen and then, with one fewer to choose, later ones.
pub(crate) fn walk(
    table: Table<'_>,
    work: &mut [f64],
    kept: &mut [u16],
    marks: &mut [u32],
    e: usize,
    b: Branch,
    held: Held,
) -> Held
    requires { Going table.values.now table.rows table.columns table.k e work.old kept.old marks.old held × At table.columns table.k b }
    ensures { (result.best ≡ better (λ K. critical_value table.entry.k e (rows_of table.entry.rows table.entry.columns table.entry.values.now) K) held.best (sets_of table.entry.columns b)) × (drop table.entry.rows work.new ≡ drop table.entry.rows work.old) × Going table.entry.values.now table.entry.rows table.entry.columns table.entry.k e work.new kept.new marks.new result }
{
    if b.left == 0 {
        return leaf(table, work, kept, marks, e, b.set, held);
    }
    if b.rest == 0 {
        return held;
    }
    let past = branch::without_next(b);
    if b.rest % 2 == 0 {
        return walk(table, work, kept, marks, e, past, held);
    }
    let n = held.n;
    if left_out(&marks[..n], table.k, e, b, held.risen) {
        return held;
    }
    let chosen = branch::with_next(b);
    let h = walk(table, work, kept, marks, e, chosen, held);
    walk(table, work, kept, marks, e, past, h)
}
