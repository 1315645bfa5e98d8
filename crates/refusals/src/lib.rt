// Why calls are turned away, and conditions that tables and trials share. The form of an answer is in specs/Answers.antt, the laws of every call in
// proofs/Answers.antt.
#![tactic(auto)]

mod refusal; // the refusals and their numbers

ghost use Rattle.std.specs.Prelude.{◌≡◌};
ghost use Rattle.refusals.specs.Limits as limits;

use limits::{LEVEL_MOST, TOLERANCE_MOST};
pub use refusal::Refusal;

// n is not from low to high.
pub fn outside(low: usize, high: usize, n: usize) -> bool
    ensures { result ≡ limits.outside low high n }
{
    n < low || high < n
}

// The condition of 4 with at most n columns.
#[tactic(auto, unfolding(crate::specs::Limits::bad_columns))]
pub fn bad_columns(n: usize, columns: usize, k: usize) -> bool
    ensures { result ≡ limits.bad_columns n columns k }
{
    outside(1, n, columns) || outside(1, TOLERANCE_MOST, k) || columns < k
}

// The condition of 4 with at most m rows and n columns.
#[tactic(auto, unfolding(crate::specs::Limits::bad_sizes))]
pub fn bad_sizes(m: usize, n: usize, rows: usize, columns: usize, k: usize) -> bool
    ensures { result ≡ limits.bad_sizes m n rows columns k }
{
    outside(1, m, rows) || bad_columns(n, columns, k)
}

// The condition of 3.
#[tactic(auto, unfolding(crate::specs::Limits::bad_level))]
pub fn bad_level(a: usize, b: usize) -> bool
    ensures { result ≡ limits.bad_level a b }
{
    a == 0 || b == 0 || b <= a || LEVEL_MOST < b
}
