// The stepdown method at e and over the live columns, on a table that has passed its checks: e at a level, one step, and the full run.
// INNER: these functions ask for what they need (`requires`): a checked table, a level in range, or a buffer that is long enough. Their callers are the crates that refuse bad input.
#![tactic(auto)]

mod levels; // e, at a level
mod steps; // one step
mod tracing; // all steps of a run, and the verdicts read off them

pub use levels::allowance;
pub use steps::{clear, step};
pub use tracing::full_run;
