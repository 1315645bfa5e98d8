// What is turned away, each refusal where its condition is the first to hold in the stated order.
ghost use Rattle.std.specs.Prelude.{◌≡◌};
ghost use Rattle.refusals.specs.Answers.{outcome};
ghost use Rattle.tablebalance.specs.Answers.{bad_counts, balance_checks};

use limits::{COLUMNS_MOST, TABLE_ROWS_MOST};
use refusals::Refusal;

// The condition of 4 for a table that comes without a k.
fn bad_counts(rows: usize, columns: usize) -> bool
    ensures { result ≡ bad_counts rows columns }
{
    refusals::outside(1, TABLE_ROWS_MOST, rows) || refusals::outside(1, COLUMNS_MOST, columns)
}

// A table whose balanced table is asked for, with a buffer of so many places: 4, 9, 11, 12.
#[tactic(auto, unfolding(crate::specs::Answers::balance_checks, stepdown::specs::Refusals::bad_value), using(crate::proofs::Calls::size_fits))]
pub(crate) fn check(
    table: &[f64],
    rows: usize,
    columns: usize,
    places: usize,
) -> Result<(), Refusal>
    ensures { result ≡ outcome (balance_checks table.now rows columns places) tt }
{
    Refusal::Sizes.if_true(bad_counts(rows, columns))?;
    let total = rows * columns;
    Refusal::Length.if_true(table.len() != total)?;
    Refusal::Value.if_true(!order::all_finite(table))?;
    Refusal::Buffer.if_true(places < total)
}
