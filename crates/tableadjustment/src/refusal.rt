// What is turned away, each refusal where its condition is the first to hold in the stated order.
ghost use Rattle.std.specs.Prelude.{◌≡◌};
ghost use Rattle.refusals.specs.Answers.{outcome};
ghost use Rattle.adjustment.specs.Answers.{adjustment_call_checks};

use limits::{COLUMNS_MOST, TABLE_ROWS_MOST};
use refusals::Refusal;

// A table whose figures are asked for: 4, 9, 10, 11, 12.
#[tactic(auto, unfolding(adjustment::specs::Answers::adjustment_checks, stepdown::specs::Refusals::bad_value), using(stepdown::proofs::Accepted::size_fits))]
pub(crate) fn check(
    table: &[f64],
    rows: usize,
    columns: usize,
    k: usize,
    observed: usize,
    places: usize,
) -> Result<(), Refusal>
    ensures { result ≡ outcome (adjustment_call_checks table.now rows columns k observed places) tt }
{
    Refusal::Sizes.if_true(refusals::bad_sizes(TABLE_ROWS_MOST, COLUMNS_MOST, rows, columns, k))?;
    Refusal::Length.if_true(table.len() != rows * columns)?;
    Refusal::Observed.if_true(rows <= observed)?;
    Refusal::Value.if_true(!order::all_finite(table))?;
    Refusal::Buffer.if_true(places < rows)
}
