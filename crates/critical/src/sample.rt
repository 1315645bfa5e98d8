// A value that c(K) is likely to be above, from a sample of the rows. Nothing rests on it: who starts from it sees whether more than e rows exceed it.
ghost use Rattle.std.specs.Prelude.{◌≡◌, ◌<◌, ◌≤◌, T, length, take, drop};
ghost use Rattle.order.specs.Order.{finite, low};
ghost use Rattle.order.specs.Counting.{all};
ghost use Rattle.columns.specs.Columns.{size, columns_of};
ghost use Rattle.critical.specs.Internal.{members_from};

use super::kmax;
use masks::Table;

// One row in so many is looked at.
const SPARSE: usize = 16;

// The k-max of each of these rows over the columns of `set`, which are listed, into the first places of the work buffer: answers how many.
fn fill_sample(table: Table<'_>, work: &mut [f64], set: u32, list: &[usize]) -> usize
    requires { (table.rows ≤ length work.old) × (table.k ≤ size (columns_of table.columns set)) × (list.now ≡ members_from 0 (columns_of table.columns set)) }
    ensures { (result ≤ table.entry.rows) × T (all finite (take result work.new)) × (drop table.entry.rows work.new ≡ drop table.entry.rows work.old) }
{
    let mut n: usize = 0;
    for g in (0..table.rows).step_by(SPARSE) {
        work[n] = kmax::kmax(table.row(g), list, table.k);
        n += 1;
    }
    n
}

// Of the sample twice e's share lies above the answer, and four more; where it has no more than that, minus infinity.
pub fn likely_below(table: Table<'_>, work: &mut [f64], e: usize, set: u32) -> f64
    requires { (table.rows ≤ length work.old) × (e < table.rows) }
    ensures { T (low result) × (drop table.entry.rows work.new ≡ drop table.entry.rows work.old) }
{
    let none = f64::NEG_INFINITY;
    let size = masks::size_of(table.columns, set);
    if size < table.k {
        return none;
    }
    let list = kmax::members(table.columns, set);
    let n = fill_sample(table, work, set, &list[..size]);
    let above = 2 * e / SPARSE + 4;
    if n <= above {
        return none;
    }
    select::mth_smallest(&work[..n], n - above)
}
