// c(K) where the rows are marked by a value below it: no other row has a k-max above that value, and the quantile is found among those that have.
ghost use Rattle.std.specs.Prelude.{◌≡◌, map, ◌<◌, ◌≤◌, ◌^◌, length, take, drop};
ghost use Rattle.order.specs.Lists.{rows_of};
ghost use Rattle.columns.specs.Columns.{size, columns_of};
ghost use Rattle.method.specs.Method.{k_max, critical_value};
ghost use Rattle.masks.specs.Marks.{holding};
ghost use Rattle.critical.specs.Internal.{members_from, Marked, tops_above};

use super::kmax;
use masks::Table;

// The k-max over the columns of `set`, which are listed, of each row whose mark holds k of them, into the first places of the work buffer: answers how many.
fn fill_above(
    table: Table<'_>,
    work: &mut [f64],
    kept: &[u16],
    marks: &[u32],
    set: u32,
    list: &[usize],
    v: f64,
) -> usize
    requires { (table.rows ≤ length work.old) × (table.k ≤ size (columns_of table.columns set)) × (set < 2 ^ table.columns) × (list.now ≡ members_from 0 (columns_of table.columns set)) × Marked (rows_of table.rows table.columns table.values.now) table.k v kept.now marks.now }
    ensures { (result ≤ table.entry.rows) × (take result work.new ≡ tops_above (rows_of table.entry.rows table.entry.columns table.entry.values.now) table.entry.k (columns_of table.entry.columns set) v) × (drop table.entry.rows work.new ≡ drop table.entry.rows work.old) }
{
    let mut n: usize = 0;
    for (i, &mark) in marks.iter().enumerate() {
        if masks::holds(mark, set, table.k) {
            work[n] = kmax::kmax(table.row(kept[i] as usize), list, table.k);
            n += 1;
        }
    }
    n
}

// The critical value of the columns of `set`, which is above v; of the work buffer only the first M places change.
pub fn raised(
    table: Table<'_>,
    work: &mut [f64],
    kept: &[u16],
    marks: &[u32],
    e: usize,
    set: u32,
    v: f64,
) -> f64
    requires { (table.rows ≤ length work.old) × (table.k ≤ size (columns_of table.columns set)) × (set < 2 ^ table.columns) × Marked (rows_of table.rows table.columns table.values.now) table.k v kept.now marks.now × (e < holding table.k set marks.now) }
    ensures { (result ≡ critical_value table.entry.k e (rows_of table.entry.rows table.entry.columns table.entry.values.now) (columns_of table.entry.columns set)) × (drop table.entry.rows work.new ≡ drop table.entry.rows work.old) }
{
    let list = kmax::members(table.columns, set);
    let size = masks::size_of(table.columns, set);
    let n = fill_above(table, work, kept, marks, set, &list[..size], v);
    select::mth_smallest(&work[..n], n - e)
}
