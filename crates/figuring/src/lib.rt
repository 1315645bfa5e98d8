// The adjusted figures of a table over its live columns: the pass down the observed values, in code.
// INNER: asks for a checked table and a set of its columns; called by `tableadjustment` and `trialadjustment`.
// What the figures are, and that the pass gives them, stands in crate adjustment.
#![tactic(auto)]

mod counting; // the count that a value needs, by row masks
mod maxima; // counts by maxima, for all columns at once
mod pass; // the pass down the observed values
mod top; // the column with the largest value in a row

pub use pass::all_figures;
