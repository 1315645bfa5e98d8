// The one layout of a trial file: every place that is judged, read or written comes from here. The definitions are in specs/, their laws in proofs/.
// INNER: `of_shape` asks for counts within the limits (`requires`). Its callers are `trialfile` and `trialwriter`.
#![tactic(auto)]

ghost use Rattle.std.specs.Prelude.{◌≡◌, ◌≤◌};
ghost use Rattle.limits.specs.Limits.{offers_most, units_most};
ghost use Rattle.trial.specs.Designs.{units_of};
ghost use Rattle.layouts.specs.Layouts.{layout_of};

use trial::Shape;

pub const LEVEL_AT: usize = 0;

pub const SHAPE_AT: usize = 1;

pub const OFFERS_AT: usize = 2;

pub const WORDS_PER_OFFER: usize = 1;

// Where the offers, the figures and the end stand, in words.
#[derive(Clone, Copy)]
pub struct Layout {
    pub offers: usize,
    pub figures: usize,
    pub end: usize,
}

pub fn of_shape(shape: Shape) -> Layout
    requires { (shape.offers ≤ offers_most) × (units_of shape.design ≤ units_most) }
    ensures { result ≡ layout_of shape }
{
    let design = shape.design;
    let figures = OFFERS_AT + shape.offers * WORDS_PER_OFFER;
    let end = figures + shape.offers * trial::units(design);
    Layout {
        offers: OFFERS_AT,
        figures,
        end,
    }
}
