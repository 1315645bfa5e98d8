// The pass down the observed values, largest first, the lower position first among equals: a column's figure is the running maximum of the counts needed.
ghost use Rattle.std.specs.Prelude.{◌≡◌, ◌≤◌, max, length, replicate};
ghost use Rattle.order.specs.Lists.{rows_of, padded};
ghost use Rattle.columns.specs.Columns.{size, columns_of};
ghost use Rattle.adjustment.specs.Adjusted.{adjusted_figures};
ghost use Rattle.adjustment.specs.Passes.{needed, k_max_pass};
ghost use Rattle.figuring.specs.Internal.{Passable, Raising};

use super::{counting, maxima};
use limits::TABLE_ROWS_MOST;
use masks::{Bound, Table};

// M for each column, which is what a column has that is never rejected.
fn unrejected(rows: usize, columns: usize) -> [usize; 32]
    requires { columns ≤ 32 }
    ensures { result ≡ padded 32 0 (replicate columns rows) }
{
    let mut figures = [0usize; 32];
    figures[..columns].fill(rows);
    figures
}

// The larger of `figure` and the count that v needs with `passed` passed: `bound`, the count by maxima, is it for k = 1, and no smaller once k are passed.
fn raised(
    table: Table<'_>,
    marks: &mut [u32],
    live: u32,
    passed: u32,
    v: f64,
    bound: usize,
    figure: usize,
) -> usize
    requires { Raising table.values.now table.rows table.columns table.k live passed v bound × (table.rows ≤ length marks.old) × (length marks.old ≤ 4096) }
    ensures { result ≡ max figure (needed table.entry.k (rows_of table.entry.rows table.entry.columns table.entry.values.now) (columns_of table.entry.columns live) (columns_of table.entry.columns passed) v) }
{
    if table.k == 1 {
        return figure.max(bound);
    }
    if table.k <= masks::size_of(table.columns, passed) && bound <= figure {
        return figure;
    }
    let mut kept = [0u16; TABLE_ROWS_MOST];
    let n = masks::mark_all(table, &mut kept, marks, Bound::Reached(v));
    counting::needed(&marks[..n], table.columns, table.k, live, passed, figure)
}

// The pass over the columns of `live`, of which there are k or more. A value no smaller than the last one with a count needs no count.
fn down(table: Table<'_>, observed: usize, live: u32) -> [usize; 32]
    requires { Passable table.values.now table.rows table.columns table.k observed live × (table.k ≤ size (columns_of table.columns live)) }
    ensures { result ≡ padded 32 0 (k_max_pass table.entry.k (rows_of table.entry.rows table.entry.columns table.entry.values.now) (columns_of table.entry.columns live) observed) }
{
    let mut ms = [0u32; TABLE_ROWS_MOST];
    let mut figures = unrejected(table.rows, table.columns);
    let seen = table.row(observed);
    let n = masks::size_of(table.columns, live);
    let order = maxima::order(seen, live);
    let counts = maxima::maxima(table, observed, &order[..n]);
    let mut passed: u32 = 0;
    let mut figure: usize = 0;
    let mut last = f64::INFINITY;
    for s in 0..n {
        let i = order[s];
        let v = seen[i];
        let b = counts[s];
        if v < last {
            figure = raised(table, &mut ms, live, passed, v, b, figure);
            last = v;
        }
        figures[i] = figure;
        passed += masks::bit(i);
    }
    figures
}

// The figures of all columns, where those of `live` take part. A table's columns are all live, and k of them or more: only a set that leaves some aside can be smaller.
pub fn all_figures(
    table: &[f64],
    rows: usize,
    columns: usize,
    k: usize,
    observed: usize,
    live: u32,
) -> [usize; 32]
    requires { Passable table.now rows columns k observed live }
    ensures { result ≡ padded 32 0 (adjusted_figures (rows_of rows columns table.now) rows columns k observed live) }
{
    if masks::size_of(columns, live) < k {
        return unrejected(rows, columns);
    }
    down(
        Table {
            values: table,
            rows,
            columns,
            k,
        },
        observed,
        live,
    )
}
