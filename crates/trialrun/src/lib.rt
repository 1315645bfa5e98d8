// The full run of a trial, and of a trial file. The definitions are in specs/, their laws in proofs/.
#![tactic(auto)]

ghost use Rattle.std.specs.Prelude.{◌≡◌, length};
ghost use Rattle.trialrun.specs.TrialRuns.{run_size, run_table, run_work, trial_answer};
ghost use Rattle.trialrun.specs.FileRuns.{file_run};

use limits::{TRIAL_ROWS_MOST, TRIAL_TABLE_MOST};
use refusals::Refusal;
use runs::FullRun;
use trial::{TableSize, Trial};

// The table of a trial into the first places of a lent buffer, for a run with a work buffer of so many places. Answers its size with
// the live offers, or the refusal, that of the record or `Buffer` for either buffer, and then the buffer is unchanged.
pub fn table_for_run(t: Trial, table: &mut [f64], work: usize) -> Result<TableSize, Refusal>
    ensures value { result ≡ run_size t (length table.old) work }
    ensures table_after { table.new ≡ run_table t table.old work }
{
    let size = trial::size(t)?;
    Refusal::Buffer.if_true(table.len() < size.rows * size.columns)?;
    Refusal::Buffer.if_true(work < size.rows)?;
    trialtable::table(t, table)?;
    Ok(size)
}

// The full run of a trial: of its table, with row 0 observed and the offers set aside that have not been tested. The table buffer then holds the table,
// and the work buffer plus zero.
pub fn full_run(t: Trial, table: &mut [f64], work: &mut [f64]) -> Result<FullRun, Refusal>
    ensures value { result ≡ trial_answer t (length table.old) (length work.old) }
    ensures table_after { table.new ≡ run_table t table.old (length work.old) }
    ensures work_after { work.new ≡ run_work t (length table.old) work.old }
{
    let size = table_for_run(t, table, work.len())?;
    let total = size.rows * size.columns;
    let e = engine::allowance(size.rows, t.level.a, t.level.b);
    Ok(engine::full_run(
        &table[..total],
        work,
        size.rows,
        size.columns,
        t.shape.k,
        e,
        0,
        size.live,
    ))
}

// What an accepted file's full run answers: its trial, and the run.
#[derive(Clone, Copy)]
pub struct FileRun {
    pub trial: Trial,
    pub run: FullRun,
}

// Reads a file and runs its trial. The buffers are those of the largest trial.
pub fn file_run(file: &[u8]) -> Result<FileRun, Refusal>
    ensures { result ≡ file_run file.now }
{
    let trial = trialfile::read(file)?;
    let mut table = [0.0f64; TRIAL_TABLE_MOST];
    let mut work = [0.0f64; TRIAL_ROWS_MOST];
    let run = full_run(trial, &mut table, &mut work)?;
    Ok(FileRun { trial, run })
}
