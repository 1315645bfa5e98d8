// One step from a state that can be stepped.
ghost use Rattle.std.specs.Prelude.{◌≡◌, ◌≤◌, length, drop};
ghost use Rattle.order.specs.Lists.{rows_of};
ghost use Rattle.refusals.specs.Buffers.{cleared};
ghost use Rattle.engine.specs.Internal.{CanStep, bar_in, stops};
ghost use Rattle.runs.specs.Stepdown as stepdown;

use limits::TABLE_ROWS_MOST;
use masks::Table;
use putback::Bar;
use runs::{Record, State, Step};

// Plus zero into the first m places of the work buffer.
pub fn clear(work: &mut [f64], m: usize)
    requires { m ≤ length work.old }
    ensures { work.new ≡ cleared m work.old }
{
    work[..m].fill(0.0);
}

// A state's table.
fn table_of(s: State, values: &[f64]) -> Table<'_>
    requires { CanStep values.now s }
    ensures { (result.values.now ≡ values.now) × (result.rows ≡ s.rows) × (result.columns ≡ s.columns) × (result.k ≡ s.k) }
{
    Table {
        values,
        rows: s.rows,
        columns: s.columns,
        k: s.k,
    }
}

// The critical value of the next step, with the set and the row that gave it.
fn bar_of(s: State, table: &[f64], work: &mut [f64]) -> Bar
    requires { CanStep table.now s × (s.rows ≤ length work.old) }
    ensures { (result ≡ bar_in (rows_of s.rows s.columns table.now) s) × (drop s.rows work.new ≡ drop s.rows work.old) }
{
    let mut kept = [0u16; TABLE_ROWS_MOST];
    let mut marks = [0u32; TABLE_ROWS_MOST];
    let table = table_of(s, table);
    if s.steps == 0 {
        return putback::critical_value(table, work, &mut kept, &mut marks, s.e, s.live);
    }
    putback::put_back(
        table,
        work,
        &mut kept,
        &mut marks,
        s.e,
        s.live - s.rejected,
        s.rejected,
    )
}

// The record of the next step. The offer is the lowest column of the set whose value in the row is the critical value; it counts from 1.
fn record_of(s: State, table: &[f64], bar: Bar) -> Record
    requires { CanStep table.now s × (bar ≡ bar_in (rows_of s.rows s.columns table.now) s) }
    ensures { result ≡ stepdown.record_of (rows_of s.rows s.columns table.now) s }
{
    let row = table_of(s, table).row(bar.row);
    let column = masks::lowest_equal(row, bar.set, bar.value);
    Record {
        step: s.steps + 1,
        critical: bar.value,
        row: bar.row,
        offer: column + 1,
    }
}

// Whether a step that rejected the columns of `new` ends the run: nothing new, fewer than k in all, or none left.
fn ends(columns: usize, k: usize, live: u32, new: u32, rejected: u32) -> bool
    ensures { result ≡ stops columns k live new rejected }
{
    new == 0 || masks::size_of(columns, rejected) < k || live == rejected
}

// The state after the next step, and the record.
pub fn step(s: State, table: &[f64], work: &mut [f64]) -> Step
    requires { CanStep table.now s × (s.rows ≤ length work.old) }
    ensures { (result ≡ stepdown.step (rows_of s.rows s.columns table.now) s) × (drop s.rows work.new ≡ drop s.rows work.old) }
{
    let bar = bar_of(s, table, work);
    let row = table_of(s, table).row(s.observed);
    let remaining = s.live - s.rejected;
    let new = masks::above(row, remaining, bar.value);
    let rejected = s.rejected + new;
    let ended = ends(s.columns, s.k, s.live, new, rejected);
    let logged = record_of(s, table, bar);
    Step {
        state: State {
            rejected,
            steps: s.steps + 1,
            ended,
            ..s
        },
        logged,
    }
}
