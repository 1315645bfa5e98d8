// The largest critical value of a branch's sets: the walk starts from a value that the first of them is likely to be above, and once more from minus infinity
// where none of them is.
ghost use Rattle.std.specs.Prelude.{◌≡◌, true, ◌<◌, ◌≤◌, ◌^◌, T, length, drop};
ghost use Rattle.std.specs.Float.{inf};
ghost use Rattle.order.specs.Order.{low};
ghost use Rattle.order.specs.Lists.{rows_of};
ghost use Rattle.method.specs.Method.{critical_value};
ghost use Rattle.putback.specs.Internal.{At, sets_of, better};

use super::branch::Branch;
use super::walk::{Best, Held};
use super::{branch, walk};
use masks::{Bound, Table};

// The first set of a branch. No index is counted: the branch goes on until nothing is left of it.
fn first_set(columns: usize, k: usize, b: Branch) -> u32
    requires { At columns k b × (columns ≤ 32) }
    ensures { result < 2 ^ columns }
{
    let mut at = b;
    while at.rest != 0 {
        if at.left == 0 {
            return at.set;
        }
        if at.rest % 2 == 1 {
            at = branch::with_next(at);
        } else {
            at = branch::without_next(at);
        }
    }
    at.set
}

// The best of `value` and the critical values of the branch's sets, and the set that gave it first; `b.set` where none is larger.
fn climb(
    table: Table<'_>,
    work: &mut [f64],
    kept: &mut [u16],
    marks: &mut [u32],
    e: usize,
    b: Branch,
    value: f64,
) -> Best
    requires { (table.rows ≤ length work.old) × (e < table.rows) × At table.columns table.k b × (table.rows ≤ length kept.old) × (table.rows ≤ length marks.old) × T (low value) }
    ensures { (result ≡ better (λ K. critical_value table.entry.k e (rows_of table.entry.rows table.entry.columns table.entry.values.now) K) (record { value = value; set = b.set }) (sets_of table.entry.columns b)) × (drop table.entry.rows work.new ≡ drop table.entry.rows work.old) }
{
    let n = masks::mark_all(table, kept, marks, Bound::Above(value));
    let held = Held {
        best: Best { value, set: b.set },
        n,
        risen: false,
    };
    if b.left == 0 {
        let one = walk::leaf(table, work, kept, marks, e, b.set, held);
        return one.best;
    }
    let h = walk::walk(table, work, kept, marks, e, b, held);
    h.best
}

// The largest critical value of the branch's sets, or minus infinity where there is none, and the set that gave it first.
pub(crate) fn largest(
    table: Table<'_>,
    work: &mut [f64],
    kept: &mut [u16],
    marks: &mut [u32],
    e: usize,
    b: Branch,
) -> Best
    requires { (table.rows ≤ length work.old) × (e < table.rows) × At table.columns table.k b × (table.rows ≤ length kept.old) × (table.rows ≤ length marks.old) }
    ensures { (result ≡ better (λ K. critical_value table.entry.k e (rows_of table.entry.rows table.entry.columns table.entry.values.now) K) (record { value = inf true; set = b.set }) (sets_of table.entry.columns b)) × (drop table.entry.rows work.new ≡ drop table.entry.rows work.old) }
{
    let first = first_set(table.columns, table.k, b);
    let v = critical::likely_below(table, work, e, first);
    let r = climb(table, work, kept, marks, e, b, v);
    if v < r.value {
        return r;
    }
    climb(table, work, kept, marks, e, b, f64::NEG_INFINITY)
}
