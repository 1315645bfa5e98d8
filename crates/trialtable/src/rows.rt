// Row 0, and rows made of those straight before them: an entry of such a row costs one subtraction.
ghost use Rattle.std.specs.Prelude.{◌≡◌, ℕ, ◌+◌, ◌*◌, ◌≤◌, ◌<◌, length, get_or, take, drop};
ghost use Rattle.std.specs.Float.{nan};
ghost use Rattle.limits.specs.Limits.{offers_most, units_most, figures_most, trial_rows_most};
ghost use Rattle.trial.specs.Designs.{units_of};
ghost use Rattle.trialtable.specs.Internal.{table_for, Fillable, begun, Reached, TakenOff, AllTaken, lowered, blocked};

use super::kinds::Kind;
use limits::{FIGURES_MOST, OFFERS_MOST};

// Row 0 into the first places of a buffer.
pub(crate) fn first_row<K: Kind>(kind: K, figures: &[i32], offers: usize, out: &mut [f64])
    requires { Fillable (K.design kind) offers figures.now (length out.old) }
    ensures { out.new ≡ begun offers (table_for (K.design kind) offers figures.now) out.old }
{
    let n = kind.units();
    for i in 0..offers {
        let a = i * n;
        out[i] = kind.first(&figures[a..a + n]);
    }
}

// What j takes off each offer's entries, into row j of an array with a row of places for each j.
fn taken_row<K: Kind>(kind: K, figures: &[i32], offers: usize, j: usize, off: &mut [f64])
    requires { (offers ≤ offers_most) × (offers * units_of (K.design kind) ≤ length figures.now) × (Reached (K.design kind) j) × (length off.old ≡ figures_most) }
    ensures { (TakenOff (K.design kind) offers figures.now off.new j) × ((p : ℕ) → p < offers_most * j → get_or off.new p nan ≡ get_or off.old p nan) }
{
    let n = kind.units();
    let at = OFFERS_MOST * j;
    for i in 0..offers {
        let a = i * n;
        off[at + i] = kind.taken_off(&figures[a..a + n], j);
    }
}

// What each j takes off.
pub(crate) fn all_taken_off<K: Kind>(kind: K, figures: &[i32], offers: usize) -> [f64; FIGURES_MOST]
    requires { (offers ≤ offers_most) × (offers * units_of (K.design kind) ≤ length figures.now) }
    ensures { AllTaken (K.design kind) offers figures.now result }
{
    let mut off = [0.0f64; FIGURES_MOST];
    for j in kind.first_step()..kind.units() {
        taken_row(kind, figures, offers, j, &mut off);
    }
    off
}

// What j takes off each offer's entries, of an array that has it for each j.
pub(crate) fn taken_by(off: &[f64], j: usize) -> &[f64]
    requires { (length off.now ≡ figures_most) × (j < units_most) }
    ensures { result.now ≡ take offers_most (drop (offers_most * j) off.now) }
{
    let row = OFFERS_MOST * j;
    &off[row..row + OFFERS_MOST]
}

// The row at `at` from the earlier one at `from`, less what `off` has for each offer: one subtraction an entry. (By index: both rows lie in one buffer.)
#[tactic(auto, unfolding(crate::specs::Internal::lowered), using(crate::proofs::Blocks::lowered_turn))]
fn row(off: &[f64], offers: usize, from: usize, at: usize, out: &mut [f64])
    requires { (offers ≤ length off.now) × (from + offers ≤ at) × (at + offers ≤ length out.old) }
    ensures { out.new ≡ lowered offers off.now from at out.old }
{
    for i in 0..offers {
        out[at + i] = out[from + i] - off[i];
    }
}

// So many rows from the row `at` on, from as many straight before them.
#[tactic(auto, unfolding(crate::specs::Internal::blocked), using(crate::proofs::Blocks::blocked_turn))]
fn row_by_row(off: &[f64], offers: usize, at: usize, rows: usize, out: &mut [f64])
    requires { (offers ≤ length off.now) × (rows ≤ at) × (at + rows ≤ trial_rows_most) × ((at + rows) * offers ≤ length out.old) }
    ensures { out.new ≡ blocked rows rows offers off.now at out.old }
{
    for h in 0..rows {
        row(
            off,
            offers,
            (at + h - rows) * offers,
            (at + h) * offers,
            out,
        );
    }
}

// The same. The widest table has a loop of its own, whose length the compiler knows.
pub(crate) fn block(off: &[f64], offers: usize, at: usize, rows: usize, out: &mut [f64])
    requires { (offers ≤ length off.now) × (rows ≤ at) × (at + rows ≤ trial_rows_most) × ((at + rows) * offers ≤ length out.old) }
    ensures { out.new ≡ blocked rows rows offers off.now at out.old }
{
    if offers == OFFERS_MOST {
        row_by_row(off, OFFERS_MOST, at, rows, out);
    } else {
        row_by_row(off, offers, at, rows, out);
    }
}
