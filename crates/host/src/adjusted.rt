// The calls that tell adjusted figures.
ghost use Rattle.std.specs.Prelude.{◌≡◌, ℕ, ◌≤◌, length, get_or};
ghost use Rattle.host.specs.AdjustedCalls.{table_adjusted_answer, table_adjusted_work, table_adjusted_buffer, trial_adjusted_answer, trial_adjusted_buffer, trial_adjusted_rows};

use super::put;
use refusals::Refusal;
use trialadjustment::FileFigures;

// A figure as a place of a buffer holds it.
fn narrow(figure: usize) -> u32
    requires { figure ≤ 4096 }
    ensures { result ≡ figure }
{
    figure as u32
}

// All figures so.
fn all_narrow(figures: [usize; 32]) -> [u32; 32]
    requires { (j : ℕ) → get_or figures j 0 ≤ 4096 }
    ensures { result ≡ figures }
{
    figures.map(narrow)
}

// The adjusted figures of a table. The result is 0, or 100 plus the refusal number.
// The first places of `figures` then hold a figure for each column, and the work buffer's plus zero, one for each row;
// where the call is refused both are unchanged.
#[unsafe(no_mangle)]
pub extern "C" fn becardlarder_table_adjusted(
    table: &[f64],
    rows: usize,
    columns: usize,
    k: usize,
    observed: usize,
    work: &mut [f64],
    figures: &mut [u32],
) -> u32
    ensures value { result ≡ table_adjusted_answer table.now rows columns k observed (length work.old) (length figures.old) }
    ensures work_after { work.new ≡ table_adjusted_work table.now rows columns k observed work.old (length figures.old) }
    ensures figures_after { figures.new ≡ table_adjusted_buffer table.now rows columns k observed (length work.old) figures.old }
{
    if figures.len() < columns {
        // The table's own refusals come first. With no work place the call below answers those or 12, and clears nothing.
        let none = &mut work[..0];
        return match tableadjustment::adjusted_figures(table, none, rows, columns, k, observed) {
            Ok(_) => 100 + u32::from(Refusal::Buffer),
            Err(early) => 100 + u32::from(early),
        };
    }
    match tableadjustment::adjusted_figures(table, work, rows, columns, k, observed) {
        Ok(adjusted) => {
            put(&all_narrow(adjusted.figures)[..columns], figures);
            0
        }
        Err(refusal) => 100 + u32::from(refusal),
    }
}

// The adjusted figures of the trial of a file. The result is 0, or 100 plus the refusal number.
// The first places of `figures` then hold a figure for each offer, and `rows` holds M; where the call is refused both are unchanged.
#[unsafe(no_mangle)]
pub extern "C" fn becardlarder_trial_adjusted(
    file: &[u8],
    figures: &mut [u32],
    rows: &mut u32,
) -> u32
    ensures value { result ≡ trial_adjusted_answer file.now (length figures.old) }
    ensures figures_after { figures.new ≡ trial_adjusted_buffer file.now figures.old }
    ensures rows_after { rows.new ≡ trial_adjusted_rows file.now (length figures.old) rows.old }
{
    match trialadjustment::file_figures(file) {
        Ok(FileFigures { trial, adjusted }) => {
            let offers = trial.shape.offers;
            if figures.len() < offers {
                return 100 + u32::from(Refusal::Buffer);
            }
            put(&all_narrow(adjusted.figures)[..offers], figures);
            *rows = adjusted.rows as u32;
            0
        }
        Err(refusal) => 100 + u32::from(refusal),
    }
}
