// The conditions of refusals 3 to 7, in the words of specs/Refusals; that of 15 is in designs.
ghost use Rattle.std.specs.Prelude.{◌≡◌, ◌≤◌, ◌<◌, length, pos};
ghost use Rattle.limits.specs.Limits.{offers_most};
ghost use Rattle.refusals.specs.Answers.{places_from, outcome};
ghost use Rattle.trial.specs.Refusals.{bad_digits, among, bad_difference, heading_checks, earlier, offer_checks, figure_checks, nth};

use crate::{Labels, Level, Shape, designs};
use limits::{DIFFERENCE_LEAST, DIFFERENCE_MOST, DIGITS_MOST, OFFERS_MOST};
use refusals::Refusal;

// A power of ten for each number of printed digits: the first number that has more.
const LIMITS: [u32; 8] = [1, 10, 100, 1000, 10000, 100000, 1000000, 10000000];

// The refusal of a trial's shape, its layout and its level: 4, then what the layout adds, then 3.
#[tactic(auto, unfolding(crate::specs::Refusals::heading_checks))]
pub(crate) fn heading(level: Level, shape: Shape) -> Result<(), Refusal>
    ensures { result ≡ outcome (heading_checks level shape) tt }
{
    Refusal::Sizes.if_true(refusals::bad_columns(OFFERS_MOST, shape.offers, shape.k))?;
    designs::check_design(shape.design)?;
    Refusal::Level.if_true(refusals::bad_level(level.a, level.b))
}

// The condition of 5.
#[tactic(auto, unfolding(crate::specs::Refusals::bad_digits))]
pub fn bad_digits(code: u32, digits: usize) -> bool
    ensures { result ≡ bad_digits code digits }
{
    refusals::outside(1, DIGITS_MOST, digits) || LIMITS[digits] <= code
}

// The condition of 6: the code is one of the first i codes.
fn earlier(codes: &[u32], i: usize, code: u32) -> bool
    requires { i ≤ length codes.now }
    ensures { result ≡ among code (earlier (nth codes.now 0) i) }
{
    codes[..i].contains(&code)
}

// The refusal of offer i among these numbers and digits: 5 before 6.
fn judged(codes: &[u32], digits: &[u8], i: usize) -> Result<(), Refusal>
    requires { (i < length codes.now) × (i < length digits.now) }
    ensures { result ≡ outcome (offer_checks (nth codes.now 0) (nth digits.now 0) i) tt }
{
    let code = codes[i];
    Refusal::Digits.if_true(bad_digits(code, usize::from(digits[i])))?;
    Refusal::Repeated.if_true(earlier(codes, i, code))
}

// The refusal of offer i among these labels. Beyond the last place no digits are printed.
pub fn check_offer(labels: Labels, i: usize) -> Result<(), Refusal>
    ensures { result ≡ outcome (offer_checks (nth labels.codes 0) (nth labels.digits 0) i) tt }
{
    Refusal::Digits.if_true(OFFERS_MOST <= i)?;
    judged(&labels.codes, &labels.digits, i)
}

// The first refusal among n offers.
pub(crate) fn offers(labels: &Labels, n: usize) -> Result<(), Refusal>
    requires { n ≤ offers_most }
    ensures { result ≡ outcome (places_from (offer_checks (nth labels.now.codes 0) (nth labels.now.digits 0)) 0 n) tt }
{
    for i in 0..n {
        judged(&labels.codes, &labels.digits, i)?;
    }
    Ok(())
}

// The condition of 7.
pub fn bad_difference(d: i32) -> bool
    ensures { result ≡ bad_difference d }
{
    d < DIFFERENCE_LEAST || DIFFERENCE_MOST < d
}

// The first refusal among these figures. All are looked at, so that the compiler can take many at a time.
pub(crate) fn figures(xs: &[i32]) -> Result<(), Refusal>
    ensures { result ≡ outcome (places_from (figure_checks (nth xs.now (pos 0))) 0 (length xs.now)) tt }
{
    let mut bad = false;
    for &x in xs {
        bad |= bad_difference(x);
    }
    Refusal::Figure.if_true(bad)
}
