// The offers that take part, as the bits of a number, in the words of specs/Aside.
ghost use Rattle.std.specs.Prelude.{◌≡◌, not, ◌+◌, ◌*◌, ◌^◌, ◌≤◌, ◌<◌};
ghost use Rattle.limits.specs.Limits.{offers_most, units_most};
ghost use Rattle.order.specs.Counting.{bit};
ghost use Rattle.trial.specs.Designs.{units_of};
ghost use Rattle.trial.specs.Aside.{live_mask};

use crate::{Trial, designs};

// A set of offers with one more before the first of them, which takes part unless it is set aside.
fn with_first(later: u32, aside: bool) -> u32
    requires { later < 2 ^ 31 }
    ensures { result ≡ bit (not aside) + 2 * later }
{
    2 * later + u32::from(!aside)
}

// The offers that take part, looked at from the last to the first.
pub(crate) fn mask(t: Trial) -> u32
    requires { (t.shape.offers ≤ offers_most) × (1 ≤ units_of t.shape.design) × (units_of t.shape.design ≤ units_most) }
    ensures { result ≡ live_mask t }
{
    let n = designs::units(t.shape.design);
    let mut m: u32 = 0;
    for i in (0..t.shape.offers).rev() {
        let aside = designs::untested(t.shape.design, &t.figures[i * n..i * n + n]);
        m = with_first(m, aside);
    }
    m
}
