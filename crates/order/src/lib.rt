// The order of f64 values: which are finite, plus zero for either zero, which are equal, and their places in the 64-bit order.
// The definitions are in specs/, their laws in proofs/.
#![tactic(auto)]

mod bits; // the 64-bit order
mod equals; // a value looked for among others
mod pairs; // two values compared

ghost use Rattle.std.specs.Prelude.{◌≡◌};
ghost use Rattle.order.specs.Order.{finite, with_plus_zero};
ghost use Rattle.order.specs.Counting.{all};

pub use bits::{bits_place, value_at};
pub use equals::{first_equal, has_equal};
pub use pairs::{equal, larger, lesser, one_where};

// Whether x is neither infinite nor no number.
#[tactic(auto, using(crate::proofs::Library::finite_is))]
pub fn is_finite(x: f64) -> bool
    ensures { result ≡ finite x }
{
    x.is_finite()
}

// Whether every value of a slice is finite.
pub fn all_finite(xs: &[f64]) -> bool
    ensures { result ≡ all finite xs.now }
{
    xs.iter().all(|x| is_finite(*x))
}

// x, and plus zero for either zero.
pub fn plus_zero(x: f64) -> f64
    ensures { result ≡ with_plus_zero x }
{
    if x == 0.0 { 0.0 } else { x }
}
