// The lowest row that has a critical value, where the work buffer has not the k-max values of all rows.
ghost use Rattle.std.specs.Prelude.{◌≡◌, map, ◌<◌, ◌≤◌, T, ltb, length, get_or};
ghost use Rattle.std.specs.Float.{nan};
ghost use Rattle.order.specs.Order.{finite, equal};
ghost use Rattle.order.specs.Counting.{all};
ghost use Rattle.order.specs.Lists.{rows_of};
ghost use Rattle.select.specs.Rank.{kth_largest};
ghost use Rattle.columns.specs.Columns.{size, columns_of};
ghost use Rattle.method.specs.Bars.{bar_row};
ghost use Rattle.critical.specs.Internal.{members_from};

use super::kmax;
use masks::Table;

// Whether a row's k-max over the listed columns equals v. It is worked out only where some value of the row does, which few have.
fn has_k_max(row: &[f64], list: &[usize], k: usize, v: f64) -> bool
    requires { T (finite v) × T (all finite row.now) × T (all (λ j. ltb j (length row.now)) list.now) × (0 < k) × (k ≤ 4) × (k ≤ length list.now) }
    ensures { result ≡ equal v (kth_largest k (map (λ j. get_or row.now j nan) list.now)) }
{
    order::has_equal(row, v) && order::equal(v, kmax::kmax(row, list, k))
}

// The lowest row whose k-max over the columns of `set`, which are listed, equals v; M where there is none.
fn row_with(table: Table<'_>, set: u32, list: &[usize], v: f64) -> usize
    requires { T (finite v) × (table.k ≤ size (columns_of table.columns set)) × (list.now ≡ members_from 0 (columns_of table.columns set)) }
    ensures { result ≡ bar_row table.entry.k (rows_of table.entry.rows table.entry.columns table.entry.values.now) (columns_of table.entry.columns set) v }
{
    for g in 0..table.rows {
        if has_k_max(table.row(g), list, table.k, v) {
            return g;
        }
    }
    table.rows
}

// The same; the columns of the set are listed here.
pub fn lowest_row(table: Table<'_>, set: u32, v: f64) -> usize
    requires { T (finite v) × (table.k ≤ size (columns_of table.columns set)) }
    ensures { result ≡ bar_row table.entry.k (rows_of table.entry.rows table.entry.columns table.entry.values.now) (columns_of table.entry.columns set) v }
{
    let list = kmax::members(table.columns, set);
    let n = masks::size_of(table.columns, set);
    row_with(table, set, &list[..n], v)
}
