// The table of a trial, into a lent buffer. What it is stands in `trial`, specs/Exchange and Lent.
#![tactic(auto)]

mod kinds; // what the rows of a table are made of, by the kind of trial
mod pairs; // the table of pairs
mod rows; // row 0, and rows made of those before them
mod shops; // the table of shops without partners

ghost use Rattle.std.specs.Prelude.{◌≡◌, length};
ghost use Rattle.refusals.specs.Answers.{outcome};
ghost use Rattle.refusals.specs.Buffers.{written};
ghost use Rattle.trial.specs.Lent.{table_call_checks, table_buffer};
ghost use Rattle.trialtable.specs.Internal.{table_for, Fillable};

use kinds::Kind;
use pairs::Pairs;
use refusals::Refusal;
use shops::Shops;
use trial::{Design, Trial};

// The table of offers in a trial of a kind, into the first places of a buffer. (Kind, figures and offers are no struct with an invariant: what
// `Fillable` says of them it says with the room of the buffer, so there would be two clauses for one.)
fn fill<K: Kind>(kind: K, figures: &[i32], offers: usize, out: &mut [f64])
    requires { Fillable (K.design kind) offers figures.now (length out.old) }
    ensures { out.new ≡ written (table_for (K.design kind) offers figures.now) out.old }
{
    let off = rows::all_taken_off(kind, figures, offers);
    rows::first_row(kind, figures, offers, out);
    kind.blocks(figures, &off, offers, out);
}

// The same in a trial that was laid out so.
fn fill_any(design: Design, figures: &[i32], offers: usize, out: &mut [f64])
    requires { Fillable design offers figures.now (length out.old) }
    ensures { out.new ≡ written (table_for design offers figures.now) out.old }
{
    match design {
        Design::Paired(pairs) => fill(Pairs { pairs }, figures, offers, out),
        Design::Unpaired(shops, treated) => fill(Shops { shops, treated }, figures, offers, out),
    }
}

// The table of a trial into the first places of a lent buffer, row after row. A refused call leaves the buffer unchanged.
pub fn table(t: Trial, out: &mut [f64]) -> Result<(), Refusal>
    ensures value { result ≡ outcome (table_call_checks t (length out.old)) tt }
    ensures out_after { out.new ≡ table_buffer t out.old }
{
    let size = trial::size(t)?;
    Refusal::Buffer.if_true(out.len() < size.rows * size.columns)?;
    fill_any(t.shape.design, &t.figures, size.columns, out);
    Ok(())
}
