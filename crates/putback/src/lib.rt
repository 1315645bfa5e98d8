// The critical value of a later step: the largest c(A with I) over the subsets I of the rejected columns with k - 1 members, with the set and the row that gave it.
// INNER: these functions ask for what they need (`requires`): a checked table, or sizes within the limits. Their caller is `engine`.
//
// c(K) is above the best value so far exactly where more than e rows have k columns of K above it, and the rows are marked by that value (crate masks):
// a set is left after one look at the marks, and so is a branch of the walk none of whose sets can rise.
#![tactic(auto)]

mod branch; // where the walk stands
mod start; // the value that the walk starts from
mod walk; // the walk over the sets

ghost use Rattle.std.specs.Prelude.{◌≡◌, true, [], ◌∷◌, map, ◌<◌, ◌≤◌, ◌+◌, ◌-◌, ◌^◌, length, drop};
ghost use Rattle.std.specs.Float.{inf};
ghost use Rattle.order.specs.Lists.{rows_of};
ghost use Rattle.columns.specs.Columns.{size, ◌∪◌, choose, columns_of};
ghost use Rattle.method.specs.Method.{critical_value, put_back};
ghost use Rattle.masks.specs.Internal.{Walk};
ghost use Rattle.putback.specs.Internal.{At, sets_of, best_of, bar_of};

use branch::Branch;
use masks::Table;

// A critical value, the first set that gives it, and the lowest row whose k-max over that set equals it.
#[derive(Clone, Copy)]
pub struct Bar {
    pub value: f64,
    pub set: u32,
    pub row: usize,
}

// That of one set, with k = 1.
fn alone(table: Table<'_>, work: &mut [f64], e: usize, set: u32) -> Bar
    requires { (table.rows ≤ length work.old) × (table.k ≤ size (columns_of table.columns set)) × (e < table.rows) × (set < 2 ^ table.columns) × (table.k ≡ 1) }
    ensures { (result ≡ bar_of table.entry.k e (rows_of table.entry.rows table.entry.columns table.entry.values.now) (columns_of table.entry.columns set ∷ []) (critical_value table.entry.k e (rows_of table.entry.rows table.entry.columns table.entry.values.now) (columns_of table.entry.columns set))) × (drop table.entry.rows work.new ≡ drop table.entry.rows work.old) }
{
    let c = critical::critical_value(table, work, e, set);
    Bar {
        value: c.value,
        set,
        row: c.row,
    }
}

// That of the sets of a branch, one or more: the row is looked for once, when the value is known.
fn of_branch(
    table: Table<'_>,
    work: &mut [f64],
    kept: &mut [u16],
    marks: &mut [u32],
    e: usize,
    b: Branch,
) -> Bar
    requires { (table.rows ≤ length work.old) × (e < table.rows) × At table.columns table.k b × (table.rows ≤ length kept.old) × (table.rows ≤ length marks.old) × (0 < length (sets_of table.columns b)) }
    ensures { (result ≡ bar_of table.entry.k e (rows_of table.entry.rows table.entry.columns table.entry.values.now) (sets_of table.entry.columns b) (best_of (inf true) (map (λ K. critical_value table.entry.k e (rows_of table.entry.rows table.entry.columns table.entry.values.now) K) (sets_of table.entry.columns b)))) × (drop table.entry.rows work.new ≡ drop table.entry.rows work.old) }
{
    let h = start::largest(table, work, kept, marks, e, b);
    let row = critical::lowest_row(table, h.set, h.value);
    Bar {
        value: h.value,
        set: h.set,
        row,
    }
}

// The critical value of the columns of `set`, with nothing put back.
pub fn critical_value(
    table: Table<'_>,
    work: &mut [f64],
    kept: &mut [u16],
    marks: &mut [u32],
    e: usize,
    set: u32,
) -> Bar
    requires { (table.rows ≤ length work.old) × (e < table.rows) × (set < 2 ^ table.columns) × (table.k ≤ size (columns_of table.columns set)) × (table.rows ≤ length kept.old) × (table.rows ≤ length marks.old) }
    ensures { (result ≡ bar_of table.entry.k e (rows_of table.entry.rows table.entry.columns table.entry.values.now) (columns_of table.entry.columns set ∷ []) (critical_value table.entry.k e (rows_of table.entry.rows table.entry.columns table.entry.values.now) (columns_of table.entry.columns set))) × (drop table.entry.rows work.new ≡ drop table.entry.rows work.old) }
{
    if table.k == 1 {
        return alone(table, work, e, set);
    }
    let b = Branch {
        set,
        rest: 0,
        from: 0,
        left: 0,
    };
    of_branch(table, work, kept, marks, e, b)
}

// The largest critical value of the columns left with k - 1 of the rejected ones put back. With k = 1 nothing is: there is one set.
pub fn put_back(
    table: Table<'_>,
    work: &mut [f64],
    kept: &mut [u16],
    marks: &mut [u32],
    e: usize,
    remaining: u32,
    rejected: u32,
) -> Bar
    requires { (table.rows ≤ length work.old) × (e < table.rows) × Walk table.columns remaining rejected 0 × (table.k ≤ size (columns_of table.columns remaining) + (table.k - 1)) × (table.k - 1 ≤ size (columns_of table.columns rejected)) × (table.rows ≤ length kept.old) × (table.rows ≤ length marks.old) }
    ensures { (result ≡ bar_of table.entry.k e (rows_of table.entry.rows table.entry.columns table.entry.values.now) (map (λ I. columns_of table.entry.columns remaining ∪ I) (choose (table.entry.k - 1) (columns_of table.entry.columns rejected))) (put_back table.entry.k e (rows_of table.entry.rows table.entry.columns table.entry.values.now) (columns_of table.entry.columns remaining) (columns_of table.entry.columns rejected))) × (drop table.entry.rows work.new ≡ drop table.entry.rows work.old) }
{
    if table.k == 1 {
        return alone(table, work, e, remaining);
    }
    let b = Branch {
        set: remaining,
        rest: rejected,
        from: 0,
        left: table.k - 1,
    };
    of_branch(table, work, kept, marks, e, b)
}
