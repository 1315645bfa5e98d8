// What is turned away, each refusal where its condition is the first to hold in the stated order.
ghost use Rattle.std.specs.Prelude.{◌≡◌, ◌^◌, false, leb};
ghost use Rattle.refusals.specs.Answers.{outcome};
ghost use Rattle.stepdown.specs.Refusals as conditions;

use super::Run;
use limits::{COLUMNS_MOST, STEPS_MOST, TABLE_ROWS_MOST};
use refusals::Refusal;

// The condition of 4 for a table.
fn bad_shape(rows: usize, columns: usize, k: usize) -> bool
    ensures { result ≡ conditions.bad_shape rows columns k }
{
    refusals::bad_sizes(TABLE_ROWS_MOST, COLUMNS_MOST, rows, columns, k)
}

// The condition of 11.
#[tactic(auto, unfolding(crate::specs::Refusals::bad_value))]
fn bad_value(table: &[f64]) -> bool
    ensures { result ≡ conditions.bad_value table.now }
{
    !order::all_finite(table)
}

// A beginning: 4, 3, 10.
pub(crate) fn check_beginning(
    rows: usize,
    columns: usize,
    k: usize,
    a: usize,
    b: usize,
    observed: usize,
) -> Result<(), Refusal>
    ensures { result ≡ outcome (conditions.begin_checks rows columns k a b observed) tt }
{
    Refusal::Sizes.if_true(bad_shape(rows, columns, k))?;
    Refusal::Level.if_true(refusals::bad_level(a, b))?;
    Refusal::Observed.if_true(rows <= observed)
}

// A full run of a table: 4, 3, 9, 10, 11, 12.
#[tactic(auto, unfolding(crate::specs::Refusals::table_checks), using(crate::proofs::Accepted::size_fits))]
pub fn check_table_run(
    table: &[f64],
    rows: usize,
    columns: usize,
    k: usize,
    a: usize,
    b: usize,
    observed: usize,
    places: usize,
) -> Result<(), Refusal>
    ensures { result ≡ outcome (conditions.table_run_checks table.now rows columns k a b observed places) tt }
{
    Refusal::Sizes.if_true(bad_shape(rows, columns, k))?;
    Refusal::Level.if_true(refusals::bad_level(a, b))?;
    Refusal::Length.if_true(table.len() != rows * columns)?;
    Refusal::Observed.if_true(rows <= observed)?;
    Refusal::Value.if_true(bad_value(table))?;
    Refusal::Buffer.if_true(places < rows)
}

// The run's own figures break 4, 3 or 10.
#[tactic(auto, unfolding(crate::specs::Refusals::bad_figures))]
fn bad_figures(r: Run) -> bool
    ensures { result ≡ conditions.bad_figures r }
{
    bad_shape(r.rows, r.columns, r.k) || refusals::bad_level(r.a, r.b) || r.rows <= r.observed
}

// A rejected column that the table hasn't, by the run's own columns.
#[tactic(auto, using(crate::proofs::Spoiled::columns_most))]
fn rejects_beyond(r: Run) -> bool
    requires { conditions.bad_figures r ≡ false }
    ensures { result ≡ leb (2 ^ r.columns) r.rejected }
{
    masks::full_mask(r.columns) < r.rejected
}

// The clauses of 14 that look at how far the run has got, for a run whose figures are good.
#[tactic(auto, unfolding(crate::specs::Refusals::progress_clauses, crate::specs::Refusals::any))]
fn bad_progress(r: Run) -> bool
    requires { conditions.bad_figures r ≡ false }
    ensures { result ≡ conditions.any (conditions.progress_clauses r) }
{
    let n = masks::size_of(r.columns, r.rejected);
    let going = !r.ended;
    rejects_beyond(r)
        || STEPS_MOST < r.steps
        || r.steps == 0 && r.rejected != 0
        || r.steps == 0 && r.ended
        || going && n < r.steps
        || going && 0 < r.steps && n < r.k
        || going && 0 < r.steps && r.columns <= n
}

// The condition of 14.
#[tactic(auto, unfolding(crate::specs::Refusals::spoiled, crate::specs::Refusals::any))]
fn spoiled(r: Run) -> bool
    ensures { result ≡ conditions.spoiled r }
{
    bad_figures(r) || bad_progress(r)
}

// A step: 14, 13, 9, 11, 12.
#[tactic(auto, using(crate::proofs::Spoiled::size_fits))]
pub(crate) fn check_step(r: Run, table: &[f64], places: usize) -> Result<(), Refusal>
    ensures { result ≡ outcome (conditions.step_checks table.now r places) tt }
{
    Refusal::Spoiled.if_true(spoiled(r))?;
    Refusal::Ended.if_true(r.ended)?;
    Refusal::Length.if_true(table.len() != r.rows * r.columns)?;
    Refusal::Value.if_true(bad_value(table))?;
    Refusal::Buffer.if_true(places < r.rows)
}
