// The calls over balanced tables.
ghost use Rattle.std.specs.Prelude.{◌≡◌, length};
ghost use Rattle.tablebalance.specs.Answers.{balance_buffer};
ghost use Rattle.host.specs.BalancedCalls.{table_balanced_answer, trial_balanced_verdicts_answer, trial_balanced_verdicts_buffer};

use super::tell;

// The balanced table of a table. The result is 0, or 100 plus the refusal number.
// The first places of `out`, rows times columns, then hold the balanced table; where the call is refused `out` is unchanged.
#[unsafe(no_mangle)]
pub extern "C" fn becardlarder_table_balanced(
    table: &[f64],
    rows: usize,
    columns: usize,
    out: &mut [f64],
) -> u32
    ensures value { result ≡ table_balanced_answer table.now rows columns (length out.old) }
    ensures out_after { out.new ≡ balance_buffer table.now rows columns out.old }
{
    match tablebalance::balanced_table(table, rows, columns, out) {
        Ok(()) => 0,
        Err(refusal) => 100 + u32::from(refusal),
    }
}

// Runs the balanced table of the trial of a file. The result and the buffer are as for `becardlarder_trial_verdicts`.
#[unsafe(no_mangle)]
pub extern "C" fn becardlarder_trial_balanced_verdicts(file: &[u8], verdicts: &mut [u8]) -> u32
    ensures value { result ≡ trial_balanced_verdicts_answer file.now (length verdicts.old) }
    ensures verdicts_after { verdicts.new ≡ trial_balanced_verdicts_buffer file.now verdicts.old }
{
    tell(trialbalance::file_balanced_run(file), verdicts)
}
