// A value looked for among others: minus zero and zero are equal.
ghost use Rattle.std.specs.Prelude.{◌≡◌, ◌+◌, ◌≤◌, ltb, length, drop};
ghost use Rattle.order.specs.Order.{equal};
ghost use Rattle.order.specs.Counting.{count};
ghost use Rattle.order.specs.Lists.{first_at};

use super::pairs;

// Whether one of them equals v. All are looked at: `any`, which stops at the first, takes half as long again.
#[tactic(auto, using(crate::proofs::Slices::counts))]
pub fn has_equal(xs: &[f64], v: f64) -> bool
    ensures { result ≡ ltb 0 (count (λ x. equal v x) xs.now) }
{
    let mut n: usize = 0;
    for x in xs {
        if pairs::equal(v, *x) {
            n += 1;
        }
    }
    0 < n
}

// So many values are passed at once where none of them equals it: `position` alone, which stops at the first, takes 2.7 times as long.
const BLOCK: usize = 16;

// A place before which none equals v: that of a block with one that does, or of what is left beyond the last block.
fn blocks_passed(xs: &[f64], v: f64) -> usize
    ensures { (result ≤ length xs.now) × (first_at (λ x. equal v x) xs.now ≡ result + first_at (λ x. equal v x) (drop result xs.now)) }
{
    let blocks = xs.len() / BLOCK;
    for b in 0..blocks {
        let from = BLOCK * b;
        if has_equal(&xs[from..from + BLOCK], v) {
            return from;
        }
    }
    BLOCK * blocks
}

// The place of the first that equals v; the number of all where none does.
pub fn first_equal(xs: &[f64], v: f64) -> usize
    ensures { result ≡ first_at (λ x. equal v x) xs.now }
{
    let from = blocks_passed(xs, v);
    let rest = &xs[from..];
    from + rest
        .iter()
        .position(|x| pairs::equal(v, *x))
        .unwrap_or(rest.len())
}
