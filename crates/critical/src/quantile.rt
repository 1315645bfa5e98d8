// c(K): the rows' k-max values over a set go into the work buffer, and the (M - e)-th smallest of them is found there. So is the lowest row that has it.
ghost use Rattle.std.specs.Prelude.{◌≡◌, map, ◌<◌, ◌≤◌, length, drop};
ghost use Rattle.order.specs.Lists.{rows_of};
ghost use Rattle.refusals.specs.Buffers.{written};
ghost use Rattle.columns.specs.Columns.{size, columns_of};
ghost use Rattle.method.specs.Method.{k_max};
ghost use Rattle.critical.specs.Internal.{members_from, found_of};

use super::kmax;
use masks::Table;

// The largest value of each row over the columns of `set`, which are listed, into the first places of the work buffer.
fn fill(table: Table<'_>, work: &mut [f64], set: u32, list: &[usize])
    requires { (table.rows ≤ length work.old) × (0 < size (columns_of table.columns set)) × (list.now ≡ members_from 0 (columns_of table.columns set)) }
    ensures { work.new ≡ written (map (λ row. k_max 1 (columns_of table.entry.columns set) row) (rows_of table.entry.rows table.entry.columns table.entry.values.now)) work.old }
{
    for g in 0..table.rows {
        work[g] = kmax::kmax(table.row(g), list, 1);
    }
}

// A critical value, and the lowest row whose k-max equals it.
#[derive(Clone, Copy)]
pub struct Found {
    pub value: f64,
    pub row: usize,
}

// The critical value of the columns of `set` with k = 1, which is written out: the compiler then makes a plain maximum of a row's k-max. Of the work buffer only
// the first M places change.
pub fn critical_value(table: Table<'_>, work: &mut [f64], e: usize, set: u32) -> Found
    requires { (table.rows ≤ length work.old) × (table.k ≤ size (columns_of table.columns set)) × (e < table.rows) × (table.k ≡ 1) }
    ensures { (result ≡ found_of table.entry.k e (rows_of table.entry.rows table.entry.columns table.entry.values.now) (columns_of table.entry.columns set)) × (drop table.entry.rows work.new ≡ drop table.entry.rows work.old) }
{
    let list = kmax::members(table.columns, set);
    let n = masks::size_of(table.columns, set);
    fill(table, work, set, &list[..n]);
    let c = select::mth_smallest(&work[..table.rows], table.rows - e);
    Found {
        value: c,
        row: order::first_equal(&work[..table.rows], c),
    }
}
