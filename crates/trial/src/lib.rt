// A trial of offers in shops: its record, its checks, the size of its table, the offers that take part.
// The definitions are in specs/, their laws in proofs/.
#![tactic(auto)]

mod checks; // the conditions of refusals
mod designs; // how a trial was laid out: all that goes by its cases
mod live; // the offers that take part

// Conditions that a file's values are judged by too.
pub use checks::{bad_difference, bad_digits, check_offer};
// How a trial was laid out, where a file is judged and a table made.
ghost use Rattle.std.specs.Prelude.{◌≡◌};
ghost use Rattle.refusals.specs.Answers.{outcome};
ghost use Rattle.trial.specs.Record.{blank};
ghost use Rattle.trial.specs.Refusals.{trial_checks};
ghost use Rattle.trial.specs.Lent.{size_of};

pub use designs::{check_design, choice_count, units};
use limits::{FIGURES_MOST, OFFERS_MOST};
use refusals::Refusal;

// The level a/b, as written.
#[derive(Clone, Copy)]
pub struct Level {
    pub a: usize,
    pub b: usize,
}

// How a trial was laid out: in so many pairs, or in shops without partners, so many of them treated.
#[derive(Clone, Copy)]
pub enum Design {
    Paired(usize),
    Unpaired(usize, usize),
}

// The tolerance k, how many offers there are, and how the trial was laid out.
#[derive(Clone, Copy)]
pub struct Shape {
    pub k: usize,
    pub offers: usize,
    pub design: Design,
}

// Each offer's number, and how many digits of it are printed. Two lists, as the theorems say it: `setting_of` (specs/Record), `ArrayLengths`.
#[derive(Clone, Copy)]
pub struct Labels {
    pub codes: [u32; OFFERS_MOST],
    pub digits: [u8; OFFERS_MOST],
}

// A trial, by value. Figures stand offer by offer: those of a paired trial are the differences of its pairs, those of shops
// without partners one for each shop, treated shops first.
// Places that the shape doesn't use are never looked at.
#[derive(Clone, Copy)]
pub struct Trial {
    pub level: Level,
    pub shape: Shape,
    pub labels: Labels,
    pub figures: [i32; FIGURES_MOST],
}

// The size of a trial's table and the offers that take part (bit i: offer i, from 0).
#[derive(Clone, Copy)]
pub struct TableSize {
    pub rows: usize,
    pub columns: usize,
    pub live: u32,
}

// The trial that holds nothing but zeros.
pub fn blank() -> Trial
    ensures { result ≡ blank }
{
    Trial {
        level: Level { a: 0, b: 0 },
        shape: Shape {
            k: 0,
            offers: 0,
            design: Design::Paired(0),
        },
        labels: Labels {
            codes: [0; OFFERS_MOST],
            digits: [0; OFFERS_MOST],
        },
        figures: [0; FIGURES_MOST],
    }
}

// The refusal that a trial meets first.
pub fn check(t: Trial) -> Result<(), Refusal>
    ensures { result ≡ outcome (trial_checks t) tt }
{
    checks::heading(t.level, t.shape)?;
    checks::offers(&t.labels, t.shape.offers)?;
    checks::figures(&t.figures[..designs::figure_count(t.shape)])
}

// The size of a trial's table, M rows and a column for each offer, and which offers take part.
pub fn size(t: Trial) -> Result<TableSize, Refusal>
    ensures { result ≡ size_of t }
{
    check(t)?;
    Ok(TableSize {
        rows: designs::rows(t.shape.design),
        columns: t.shape.offers,
        live: live::mask(t),
    })
}
