// Adjusted figures: the least allowance e at which the stepdown method rejects each column.
// The definitions are in specs/, their laws in proofs/.
#![tactic(auto)]

ghost use Rattle.std.specs.Prelude.{◌≡◌};
ghost use Rattle.adjustment.specs.Answers.{blank_figures, told_figures};

use refusals::Refusal;

// What is answered: M, the rows of the table; a figure for each column. Places that the columns don't use hold zero.
// An array of 32 places: no heap, fixed memory.
#[derive(Clone, Copy)]
pub struct Adjusted {
    pub rows: usize,
    pub figures: [usize; 32],
}

// Figures of which nothing is told.
fn blank() -> Adjusted
    ensures { result ≡ blank_figures }
{
    Adjusted {
        rows: 0,
        figures: [0usize; 32],
    }
}

// An answer as it is told: 0 and the figures, or the number of the refusal and blank figures.
pub fn told(answer: Result<Adjusted, Refusal>) -> (u32, Adjusted)
    ensures { result ≡ told_figures answer }
{
    match answer {
        Ok(adjusted) => (0, adjusted),
        Err(refusal) => (u32::from(refusal), blank()),
    }
}
