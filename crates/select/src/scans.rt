// Scans of all values: loops that compare with bounds and depend on nothing else, so that they become vector instructions.
ghost use Rattle.std.specs.Prelude.{◌≡◌};
ghost use Rattle.order.specs.Order.{smaller};
ghost use Rattle.order.specs.Counting.{count};
ghost use Rattle.select.specs.Internal.{chosen, any_bits, every_bits};

// How many values are smaller than t.
#[tactic(auto, using(order::proofs::Slices::counts))]
pub(crate) fn count_below(xs: &[f64], t: f64) -> usize
    ensures { result ≡ count (λ x. smaller x t) xs.now }
{
    let mut n: usize = 0;
    for x in xs {
        if *x < t {
            n += 1;
        }
    }
    n
}

// The bit pattern of x, with plus zero for either zero, where x is from lo to below hi; `none` elsewhere.
fn pattern(lo: f64, hi: f64, x: f64, none: u64) -> u64
    ensures { result ≡ chosen lo hi x none }
{
    if !(x < lo) && x < hi {
        order::plus_zero(x).to_bits()
    } else {
        none
    }
}

// How many values are smaller than a bound; and, of the patterns between two others, the bits that are set in some and those that are set in all.
#[derive(Clone, Copy)]
pub struct Gathered {
    pub below: usize,
    pub any: u64,
    pub every: u64,
}

// The values smaller than t, and the patterns from lo to below hi.
#[tactic(auto, using(order::proofs::Slices::counts))]
pub(crate) fn gather(xs: &[f64], t: f64, lo: f64, hi: f64) -> Gathered
    ensures { (result.below ≡ count (λ x. smaller x t) xs.now) × (result.any ≡ any_bits lo hi xs.now) × (result.every ≡ every_bits lo hi xs.now) }
{
    let mut below: usize = 0;
    let mut any: u64 = 0;
    let mut every: u64 = u64::MAX;
    for &x in xs {
        any |= pattern(lo, hi, x, 0);
        every &= pattern(lo, hi, x, u64::MAX);
        if x < t {
            below += 1;
        }
    }
    Gathered { below, any, every }
}
