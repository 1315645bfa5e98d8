// The table of pairs, by doubling: row 2^j + h is row h with twice the difference of pair j taken off.
ghost use Rattle.std.specs.Prelude.{◌≡◌};
ghost use Rattle.refusals.specs.Answers.{first_refusal};
ghost use Rattle.trial.specs.Designs.{design_checks};
ghost use Rattle.trial.specs.declared.Design.TheVariants.{Paired};

use super::kinds::{self, Kind};
use super::rows;

// A trial in so many pairs.
#[derive(Clone, Copy)]
pub(crate) struct Pairs {
    pub pairs: usize,
    ghost accepted: { first_refusal (design_checks (Paired pairs)) ≡ 0 },
}

impl Kind for Pairs {
    ghost use Rattle.trial.specs.declared.Design.TheVariants.{Paired};

    ghost design = { λ kind. Paired kind.pairs };

    ghost accepted = { λ kind. kind.accepted };

    #[tactic(auto, unfolding(trial::specs::Designs::units_of))]
    fn units(self) -> usize {
        self.pairs
    }

    fn first(self, figures: &[i32]) -> f64 {
        kinds::sum(figures) as f64
    }

    #[tactic(auto, unfolding(crate::specs::Internal::first_step))]
    fn first_step(self) -> usize {
        0
    }

    fn taken_off(self, figures: &[i32], j: usize) -> f64 {
        let x = i64::from(figures[j]);
        (x + x) as f64
    }

    fn blocks(self, figures: &[i32], off: &[f64], offers: usize, out: &mut [f64]) {
        for j in 0..self.pairs {
            let at = 1usize << j;
            rows::block(rows::taken_by(off, j), offers, at, at, out);
        }
    }
}
