// Two values compared, each function in a form that the compiler makes an instruction or two of, without a branch.
ghost use Rattle.std.specs.Prelude.{◌≡◌};
ghost use Rattle.order.specs.Order.{at_most, equal, larger, lesser};
ghost use Rattle.order.specs.Counting.{bit};

// The larger of two values, the first of equals.
pub fn larger(x: f64, y: f64) -> f64
    ensures { result ≡ larger x y }
{
    if x < y { y } else { x }
}

// The other one.
pub fn lesser(x: f64, y: f64) -> f64
    ensures { result ≡ lesser x y }
{
    if x < y { x } else { y }
}

// 1 where x reaches v, and 0 where it does not.
pub fn one_where(v: f64, x: f64) -> usize
    ensures { result ≡ bit (at_most v x) }
{
    usize::from(v <= x)
}

// Whether two values are equal as numbers: minus zero and zero are.
#[tactic(auto, using(crate::proofs::Library::equal_eq))]
pub fn equal(x: f64, y: f64) -> bool
    ensures { result ≡ equal x y }
{
    x == y
}
