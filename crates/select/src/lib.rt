// Selection by rank among f64 values. The definitions are in specs/, their laws in proofs/.
// INNER: `mth_smallest` asks for finite values and a rank among them (`requires`). Its caller is `critical`.
#![tactic(auto)]

mod scans; // scans of all values
mod smallest; // the m-th smallest, bit by bit

pub use smallest::mth_smallest;
