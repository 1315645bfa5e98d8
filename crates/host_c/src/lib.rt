// The static library of the calls for hosts written in C: each export is the call of the library `host` of that name, with its clauses.
// include/becardlarder.h documents them for a C programmer; a slice is a pointer and a length there.
// Each stands here once more, with the same clauses: a static library exports what its own crate names, and other crates call `host`.
#![tactic(auto)]

ghost use Rattle.std.specs.Prelude.{◌≡◌, length};
ghost use Rattle.host.specs.Calls.{trial_verdicts_answer, trial_verdicts_buffer, table_verdicts_answer, table_verdicts_work, table_verdicts_buffer};
ghost use Rattle.host.specs.AdjustedCalls.{table_adjusted_answer, table_adjusted_work, table_adjusted_buffer, trial_adjusted_answer, trial_adjusted_buffer, trial_adjusted_rows};
ghost use Rattle.tablebalance.specs.Answers.{balance_buffer};
ghost use Rattle.host.specs.BalancedCalls.{table_balanced_answer, trial_balanced_verdicts_answer, trial_balanced_verdicts_buffer};

// Runs the trial of a file. The result is the number of rejected offers, or 100 plus the refusal number.
// The buffer's first bytes then hold, per offer, the rejecting step, 0 where it is kept, or 255 where it is set aside; where the call is refused it is unchanged.
#[unsafe(no_mangle)]
pub extern "C" fn becardlarder_trial_verdicts(file: &[u8], verdicts: &mut [u8]) -> u32
    ensures value { result ≡ trial_verdicts_answer file.now (length verdicts.old) }
    ensures verdicts_after { verdicts.new ≡ trial_verdicts_buffer file.now verdicts.old }
{
    host::becardlarder_trial_verdicts(file, verdicts)
}

// Runs a table. The result is the number of rejected columns, or 100 plus the refusal number.
// The verdict buffer's first bytes then hold, per column, the rejecting step or 0, and the work buffer's first places plus zero, one for each row;
// where the call is refused both are unchanged.
#[unsafe(no_mangle)]
pub extern "C" fn becardlarder_table_verdicts(
    table: &[f64],
    rows: usize,
    columns: usize,
    k: usize,
    a: usize,
    b: usize,
    observed: usize,
    work: &mut [f64],
    verdicts: &mut [u8],
) -> u32
    ensures value { result ≡ table_verdicts_answer table.now rows columns k a b observed (length work.old) (length verdicts.old) }
    ensures work_after { work.new ≡ table_verdicts_work table.now rows columns k a b observed work.old (length verdicts.old) }
    ensures verdicts_after { verdicts.new ≡ table_verdicts_buffer table.now rows columns k a b observed (length work.old) verdicts.old }
{
    host::becardlarder_table_verdicts(table, rows, columns, k, a, b, observed, work, verdicts)
}

// The adjusted figures of a table. The result is 0, or 100 plus the refusal number.
// The first places of `figures` then hold a figure for each column, and the work buffer's plus zero, one for each row;
// where the call is refused both are unchanged.
#[unsafe(no_mangle)]
pub extern "C" fn becardlarder_table_adjusted(
    table: &[f64],
    rows: usize,
    columns: usize,
    k: usize,
    observed: usize,
    work: &mut [f64],
    figures: &mut [u32],
) -> u32
    ensures value { result ≡ table_adjusted_answer table.now rows columns k observed (length work.old) (length figures.old) }
    ensures work_after { work.new ≡ table_adjusted_work table.now rows columns k observed work.old (length figures.old) }
    ensures figures_after { figures.new ≡ table_adjusted_buffer table.now rows columns k observed (length work.old) figures.old }
{
    host::adjusted::becardlarder_table_adjusted(table, rows, columns, k, observed, work, figures)
}

// The adjusted figures of the trial of a file. The result is 0, or 100 plus the refusal number.
// The first places of `figures` then hold a figure for each offer, and `rows` holds M; where the call is refused both are unchanged.
#[unsafe(no_mangle)]
pub extern "C" fn becardlarder_trial_adjusted(
    file: &[u8],
    figures: &mut [u32],
    rows: &mut u32,
) -> u32
    ensures value { result ≡ trial_adjusted_answer file.now (length figures.old) }
    ensures figures_after { figures.new ≡ trial_adjusted_buffer file.now figures.old }
    ensures rows_after { rows.new ≡ trial_adjusted_rows file.now (length figures.old) rows.old }
{
    host::adjusted::becardlarder_trial_adjusted(file, figures, rows)
}

// The balanced table of a table. The result is 0, or 100 plus the refusal number.
// The first places of `out`, rows times columns, then hold the balanced table; where the call is refused `out` is unchanged.
#[unsafe(no_mangle)]
pub extern "C" fn becardlarder_table_balanced(
    table: &[f64],
    rows: usize,
    columns: usize,
    out: &mut [f64],
) -> u32
    ensures value { result ≡ table_balanced_answer table.now rows columns (length out.old) }
    ensures out_after { out.new ≡ balance_buffer table.now rows columns out.old }
{
    host::balanced::becardlarder_table_balanced(table, rows, columns, out)
}

// Runs the balanced table of the trial of a file. The result and the buffer are as for `becardlarder_trial_verdicts`.
#[unsafe(no_mangle)]
pub extern "C" fn becardlarder_trial_balanced_verdicts(file: &[u8], verdicts: &mut [u8]) -> u32
    ensures value { result ≡ trial_balanced_verdicts_answer file.now (length verdicts.old) }
    ensures verdicts_after { verdicts.new ≡ trial_balanced_verdicts_buffer file.now verdicts.old }
{
    host::balanced::becardlarder_trial_balanced_verdicts(file, verdicts)
}
