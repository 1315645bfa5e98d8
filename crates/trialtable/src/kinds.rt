// What the rows of a table are made of, by the kind of trial.
ghost use Rattle.std.specs.Prelude.{◌≡◌, ◌*◌, ◌≤◌, length, nat_abs};
ghost use Rattle.std.specs.Float.{binary64};
ghost use Rattle.std.specs.Float.Ieee.{of_int};
ghost use Rattle.limits.specs.Limits.{units_most};
ghost use Rattle.refusals.specs.Answers.{first_refusal};
ghost use Rattle.refusals.specs.Buffers.{written};
ghost use Rattle.trial.specs.Choices.{sum_of};
ghost use Rattle.trial.specs.Designs.{design_checks, units_of, entry_of};
ghost use Rattle.trial.specs.declared.Design.{Design};
ghost use Rattle.trialtable.specs.Internal.{table_for, Fillable, begun, taken_off, first_step, Reached, AllTaken};

// A kind of trial. `figures` are those of one offer, but for `blocks`.
pub(crate) trait Kind: Copy {
    // How the trial was laid out.
    ghost design: { Self → Design };

    // It is one that is accepted.
    ghost accepted: { (kind : Self) → first_refusal (design_checks (design kind)) ≡ 0 };

    fn units(self) -> usize
        ensures { result ≡ units_of (design self) };

    // The entry in row 0.
    fn first(self, figures: &[i32]) -> f64
        requires { length figures.now ≡ units_of (design self) }
        ensures { result ≡ of_int binary64 (entry_of (design self) 0 figures.now) };

    // The first j that makes rows: a pair, or a shop that has one before it.
    fn first_step(self) -> usize
        ensures { result ≡ first_step (design self) };

    // What j takes off the entries.
    fn taken_off(self, figures: &[i32], j: usize) -> f64
        requires { (length figures.now ≡ units_of (design self)) × (Reached (design self) j) }
        ensures { result ≡ of_int binary64 (taken_off (design self) j figures.now) };

    // Every row after row 0, block by block. (`figures` stand in the contract: `off` is made of them.)
    fn blocks(self, figures: &[i32], off: &[f64], offers: usize, out: &mut [f64])
        requires { (Fillable (design self) offers figures.now (length out.old)) × (AllTaken (design self) offers figures.now off.now) × (out.old ≡ begun offers (table_for (design self) offers figures.now) out.old) }
        ensures { out.new ≡ written (table_for (design self) offers figures.now) out.old };
}

// The sum of an offer's figures.
pub(crate) fn sum(figures: &[i32]) -> i64
    requires { length figures.now ≤ units_most }
    ensures { (result ≡ sum_of figures.now) × (nat_abs result ≤ length figures.now * 2147483648) }
{
    let mut sum: i64 = 0;
    for x in figures {
        sum += i64::from(*x);
    }
    sum
}
