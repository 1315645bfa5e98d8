// The balanced full run of a trial, and of a trial file. The definitions are in specs/, their laws in proofs/.
#![tactic(auto)]

ghost use Rattle.std.specs.Prelude.{◌≡◌, length};
ghost use Rattle.trialrun.specs.TrialRuns.{run_work};
ghost use Rattle.trialbalance.specs.TrialBalance.{trial_balanced_answer, run_balanced};
ghost use Rattle.trialbalance.specs.FileBalance.{file_balanced_run};

use limits::{TRIAL_ROWS_MOST, TRIAL_TABLE_MOST};
use refusals::Refusal;
use runs::FullRun;
use trial::Trial;
use trialrun::FileRun;

// The full run of a trial's balanced table, with row 0 observed and the offers set aside that have not been tested. The table buffer then holds the
// balanced table, and the work buffer plus zero.
pub fn balanced_run(t: Trial, table: &mut [f64], work: &mut [f64]) -> Result<FullRun, Refusal>
    ensures value { result ≡ trial_balanced_answer t (length table.old) (length work.old) }
    ensures table_after { table.new ≡ run_balanced t table.old (length work.old) }
    ensures work_after { work.new ≡ run_work t (length table.old) work.old }
{
    let size = trialrun::table_for_run(t, table, work.len())?;
    let rows = size.rows;
    let total = rows * size.columns;
    let mut places = [0u64; TRIAL_ROWS_MOST];
    let mut order = [0u16; TRIAL_ROWS_MOST];
    let mut spare = [0u16; TRIAL_ROWS_MOST];
    ranking::balance(
        &mut table[..total],
        rows,
        size.columns,
        &mut places[..rows],
        &mut order[..rows],
        &mut spare[..rows],
    );
    let e = engine::allowance(rows, t.level.a, t.level.b);
    Ok(engine::full_run(
        &table[..total],
        work,
        rows,
        size.columns,
        t.shape.k,
        e,
        0,
        size.live,
    ))
}

// Reads a file and runs the balanced table of its trial. The buffers are those of the largest trial.
pub fn file_balanced_run(file: &[u8]) -> Result<FileRun, Refusal>
    ensures { result ≡ file_balanced_run file.now }
{
    let trial = trialfile::read(file)?;
    let mut table = [0.0f64; TRIAL_TABLE_MOST];
    let mut work = [0.0f64; TRIAL_ROWS_MOST];
    let run = balanced_run(trial, &mut table, &mut work)?;
    Ok(FileRun { trial, run })
}
