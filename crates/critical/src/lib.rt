// Critical values of a table that has passed its checks: a row's k-max, c(K) with the row that has it, and counts of rows.
// INNER: these functions ask for what they need (`requires`): a checked table, or sizes within the limits. Their callers are `putback` and `engine`.
// `fill`, `fill_above` and `fill_sample` stay three: each is a loop of a line or two, and one over any rows would promise less of each.
#![tactic(auto)]

mod bars; // the lowest row that has a critical value
mod counts; // how many rows reach each observed value
mod kmax; // a row's k-max
mod quantile; // c(K): a quantile of the k-max values, with the work buffer
mod raise; // c(K) where it is known to be above a value
mod sample; // a value that c(K) is likely to be above

pub use bars::lowest_row;
pub use counts::at_least;
pub use quantile::{Found, critical_value};
pub use raise::raised;
pub use sample::likely_below;
