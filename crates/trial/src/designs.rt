// How a trial was laid out: all that goes by its cases, in the words of specs/Designs.
ghost use Rattle.std.specs.Prelude.{◌≡◌, length, ◌≤◌};
ghost use Rattle.limits.specs.Limits.{offers_most, shops_most, units_most, figures_most};
ghost use Rattle.refusals.specs.Answers.{outcome, first_refusal};
ghost use Rattle.trial.specs.Choices.{choices};
ghost use Rattle.trial.specs.Designs.{bad_shops, design_checks, units_of, row_count, same_figure, alike, yardstick, untested};
ghost use Rattle.trial.specs.Record.{figure_count};

use crate::{Design, Shape};
use limits::{PAIRS_MOST, SHOPS_MOST};
use refusals::Refusal;

// How many choices of t of n shops there are: row n, place t.
const CHOICES: [[u8; 11]; 11] = [
    [1, 0, 0, 0, 0, 0, 0, 0, 0, 0, 0],
    [1, 1, 0, 0, 0, 0, 0, 0, 0, 0, 0],
    [1, 2, 1, 0, 0, 0, 0, 0, 0, 0, 0],
    [1, 3, 3, 1, 0, 0, 0, 0, 0, 0, 0],
    [1, 4, 6, 4, 1, 0, 0, 0, 0, 0, 0],
    [1, 5, 10, 10, 5, 1, 0, 0, 0, 0, 0],
    [1, 6, 15, 20, 15, 6, 1, 0, 0, 0, 0],
    [1, 7, 21, 35, 35, 21, 7, 1, 0, 0, 0],
    [1, 8, 28, 56, 70, 56, 28, 8, 1, 0, 0],
    [1, 9, 36, 84, 126, 126, 84, 36, 9, 1, 0],
    [1, 10, 45, 120, 210, 252, 210, 120, 45, 10, 1],
];

// The figures of an offer.
#[tactic(auto, unfolding(crate::specs::Designs::units_of))]
pub fn units(d: Design) -> usize
    ensures { result ≡ units_of d }
{
    match d {
        Design::Paired(pairs) => pairs,
        Design::Unpaired(shops, _) => shops,
    }
}

// The condition of 15.
fn bad_shops(shops: usize, treated: usize) -> bool
    ensures { result ≡ bad_shops shops treated }
{
    refusals::outside(2, SHOPS_MOST, shops) || refusals::outside(1, shops - 1, treated)
}

// The refusal of a layout: 4 where the pairs are out of range, 15 where the shops or the treated ones are.
#[tactic(auto, unfolding(crate::specs::Designs::design_checks))]
pub fn check_design(d: Design) -> Result<(), Refusal>
    ensures { result ≡ outcome (design_checks d) tt }
{
    match d {
        Design::Paired(pairs) => Refusal::Sizes.if_true(refusals::outside(1, PAIRS_MOST, pairs)),
        Design::Unpaired(shops, treated) => Refusal::Shops.if_true(bad_shops(shops, treated)),
    }
}

// How many choices of so many shops there are. INNER: it asks for counts within the limits. Its callers are here and in `trialtable`.
pub fn choice_count(shops: usize, treated: usize) -> usize
    requires { (shops ≤ shops_most) × (treated ≤ shops_most) }
    ensures { result ≡ length (choices shops treated) }
{
    usize::from(CHOICES[shops][treated])
}

// M: a row for each way to exchange the shops of pairs, or for each choice of shops.
pub(crate) fn rows(d: Design) -> usize
    requires { first_refusal (design_checks d) ≡ 0 }
    ensures { result ≡ row_count d }
{
    match d {
        Design::Paired(pairs) => 1usize << pairs,
        Design::Unpaired(shops, treated) => choice_count(shops, treated),
    }
}

// How many figures a trial of this shape has.
#[tactic(auto, unfolding(crate::specs::Record::figure_count), using(crate::proofs::LaidOut::count_most))]
pub(crate) fn figure_count(shape: Shape) -> usize
    requires { (shape.offers ≤ offers_most) × (units_of shape.design ≤ units_most) }
    ensures { (result ≡ figure_count shape) × (result ≤ figures_most) }
{
    shape.offers * units(shape.design)
}

// What all figures of an offer are where it has not been tested: 0, or what the first shop has.
#[tactic(auto, unfolding(crate::specs::Designs::yardstick))]
fn yardstick(d: Design, figures: &[i32]) -> i32
    requires { 1 ≤ length figures.now }
    ensures { result ≡ yardstick d figures.now }
{
    match d {
        Design::Paired(_) => 0,
        Design::Unpaired(_, _) => figures[0],
    }
}

// Whether two figures are equal.
#[tactic(auto, using(crate::proofs::Aside::same_bits))]
fn same(x: i32, y: i32) -> bool
    ensures { result ≡ same_figure x y }
{
    x == y
}

// Whether every figure equals z.
fn alike(z: i32, figures: &[i32]) -> bool
    ensures { result ≡ alike z figures.now }
{
    figures.iter().all(|&x| same(x, z))
}

// Whether an offer with these figures has not been tested.
#[tactic(auto, unfolding(crate::specs::Designs::untested))]
pub(crate) fn untested(d: Design, figures: &[i32]) -> bool
    requires { 1 ≤ length figures.now }
    ensures { result ≡ untested d figures.now }
{
    alike(yardstick(d, figures), figures)
}
