// The adjusted figures of a table: a public call, which refuses bad input.
// What they are stands in crate adjustment; crate figuring works them out.
#![tactic(auto)]

mod refusal; // what is turned away

ghost use Rattle.std.specs.Prelude.{◌≡◌, length};
ghost use Rattle.adjustment.specs.Answers.{figures_answer, figures_work};

use adjustment::Adjusted;
use refusals::Refusal;

// The figure of each column of a table. No level is taken; the work buffer then holds plus zero.
#[tactic(auto, unfolding(adjustment::specs::Answers::figures_answer, adjustment::specs::Answers::figures_work, adjustment::specs::Answers::adjustment_checks, refusals::specs::Answers::answer))]
pub fn adjusted_figures(
    table: &[f64],
    work: &mut [f64],
    rows: usize,
    columns: usize,
    k: usize,
    observed: usize,
) -> Result<Adjusted, Refusal>
    ensures value { result ≡ figures_answer table.now rows columns k observed (length work.old) }
    ensures work_after { work.new ≡ figures_work table.now rows columns k observed work.old }
{
    refusal::check(table, rows, columns, k, observed, work.len())?;
    engine::clear(work, rows);
    let live = masks::full_mask(columns);
    let figures = figuring::all_figures(table, rows, columns, k, observed, live);
    Ok(Adjusted { rows, figures })
}
