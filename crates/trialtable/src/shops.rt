// The table of shops without partners. Shops count from 0. The rows whose choice has the shops before p, none from p to m - 1, and m, stand straight
// after as many rows that have m - 1 in the place of m: so each entry is the earlier one less shops × (the figure of m - 1 less that of m).
ghost use Rattle.std.specs.Prelude.{◌≡◌, ◌+◌, ◌-◌, ◌*◌, ◌≤◌, ◌<◌, length, take, drop, pos, ◌-ℤ◌, ◌*ℤ◌};
ghost use Rattle.std.specs.Float.{binary64};
ghost use Rattle.std.specs.Float.Ieee.{of_int};
ghost use Rattle.limits.specs.Limits.{units_most};
ghost use Rattle.refusals.specs.Answers.{first_refusal};
ghost use Rattle.trial.specs.Choices.{choices, sum_of};
ghost use Rattle.trial.specs.Designs.{design_checks};
ghost use Rattle.trial.specs.declared.Design.TheVariants.{Unpaired};
ghost use Rattle.trialtable.specs.Internal.{table_for, Fillable, begun, AllTaken};

use super::kinds::{self, Kind};
use super::rows;
use trial::choice_count;

// A trial in shops without partners, so many of them treated.
#[derive(Clone, Copy)]
pub(crate) struct Shops {
    pub shops: usize,
    pub treated: usize,
    ghost accepted: { first_refusal (design_checks (Unpaired shops treated)) ≡ 0 },
}

// The contrast of the first shops, which are the treated ones.
fn first_contrast(figures: &[i32], treated: usize) -> f64
    requires { (length figures.now ≤ units_most) × (treated ≤ length figures.now) }
    ensures { result ≡ of_int binary64 (pos (length figures.now - treated) *ℤ sum_of (take treated figures.now) -ℤ pos treated *ℤ sum_of (drop treated figures.now)) }
{
    let (chosen, others) = figures.split_at(treated);
    let more = (others.len() as i64) * kinds::sum(chosen);
    let less = (treated as i64) * kinds::sum(others);
    (more - less) as f64
}

impl Shops {
    // The rows whose choice has the shops before p and not p itself, after the `from` rows that have p too; and how many rows there are then.
    // (`figures` stand in the contract: `off` is made of them.)
    fn without(
        self,
        figures: &[i32],
        off: &[f64],
        offers: usize,
        p: usize,
        from: usize,
        out: &mut [f64],
    ) -> usize
        requires { (Fillable (Unpaired self.shops self.treated) offers figures.now (length out.old)) × (AllTaken (Unpaired self.shops self.treated) offers figures.now off.now) × (p < self.treated) × (from ≡ length (choices (self.shops - (p + 1)) (self.treated - (p + 1)))) × (out.old ≡ begun (from * offers) (table_for (Unpaired self.shops self.treated) offers figures.now) out.old) }
        ensures { (result ≡ length (choices (self.shops - p) (self.treated - p))) × (out.new ≡ begun (result * offers) (table_for (Unpaired self.shops self.treated) offers figures.now) out.old) }
    {
        let left = self.treated - p - 1;
        let mut at = from;
        for m in p + 1..self.shops - left {
            let many = choice_count(self.shops - m - 1, left);
            rows::block(rows::taken_by(off, m), offers, at, many, out);
            at += many;
        }
        at
    }
}

impl Kind for Shops {
    ghost use Rattle.trial.specs.declared.Design.TheVariants.{Unpaired};

    ghost design = { λ kind. Unpaired kind.shops kind.treated };

    ghost accepted = { λ kind. kind.accepted };

    #[tactic(auto, unfolding(trial::specs::Designs::units_of))]
    fn units(self) -> usize {
        self.shops
    }

    fn first(self, figures: &[i32]) -> f64 {
        first_contrast(figures, self.treated)
    }

    #[tactic(auto, unfolding(crate::specs::Internal::first_step))]
    fn first_step(self) -> usize {
        1
    }

    fn taken_off(self, figures: &[i32], j: usize) -> f64 {
        let x = i64::from(figures[j - 1]);
        let y = i64::from(figures[j]);
        ((self.shops as i64) * (x - y)) as f64
    }

    fn blocks(self, figures: &[i32], off: &[f64], offers: usize, out: &mut [f64]) {
        let mut at: usize = 1;
        for p in (0..self.treated).rev() {
            at = self.without(figures, off, offers, p, at, out);
        }
    }
}
