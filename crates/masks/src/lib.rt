// Sets of columns as the bits of a number, and a table's rows as such sets.
// INNER: these functions ask for what they need (`requires`): a checked table, or sizes within the limits.
#![tactic(auto)]

mod rows; // the marks of a table's rows, and counts of them
mod sets; // one set: its bits and their number
mod table; // a table that has passed its checks

pub use rows::{Bound, count_holding, holds, mark, mark_all};
pub use sets::{above, bit, full_mask, lowest_equal, lowest_over, size_of};
pub use table::Table;
