// The adjusted figures of a trial, and of a trial file. The definitions are in specs/, their laws in proofs/.
#![tactic(auto)]

ghost use Rattle.std.specs.Prelude.{◌≡◌, length};
ghost use Rattle.trialrun.specs.TrialRuns.{run_table, run_work};
ghost use Rattle.trialadjustment.specs.TrialFigures.{trial_figures_answer};
ghost use Rattle.trialadjustment.specs.FileFigures.{file_figures};

use adjustment::Adjusted;
use limits::{TRIAL_ROWS_MOST, TRIAL_TABLE_MOST};
use refusals::Refusal;
use trial::Trial;

// The figures of a trial: of its table, with row 0 observed and the offers set aside that have not been tested, whose figure is M. The table buffer then
// holds the table, and the work buffer plus zero.
pub fn trial_figures(t: Trial, table: &mut [f64], work: &mut [f64]) -> Result<Adjusted, Refusal>
    ensures value { result ≡ trial_figures_answer t (length table.old) (length work.old) }
    ensures table_after { table.new ≡ run_table t table.old (length work.old) }
    ensures work_after { work.new ≡ run_work t (length table.old) work.old }
{
    let size = trialrun::table_for_run(t, table, work.len())?;
    let rows = size.rows;
    let total = rows * size.columns;
    engine::clear(work, rows);
    let figures = figuring::all_figures(
        &table[..total],
        rows,
        size.columns,
        t.shape.k,
        0,
        size.live,
    );
    Ok(Adjusted { rows, figures })
}

// What an accepted file's figures answer: its trial, and the figures.
#[derive(Clone, Copy)]
pub struct FileFigures {
    pub trial: Trial,
    pub adjusted: Adjusted,
}

// Reads a file and works out the figures of its trial. The buffers are those of the largest trial.
pub fn file_figures(file: &[u8]) -> Result<FileFigures, Refusal>
    ensures { result ≡ file_figures file.now }
{
    let trial = trialfile::read(file)?;
    let mut table = [0.0f64; TRIAL_TABLE_MOST];
    let mut work = [0.0f64; TRIAL_ROWS_MOST];
    let adjusted = trial_figures(trial, &mut table, &mut work)?;
    Ok(FileFigures { trial, adjusted })
}
