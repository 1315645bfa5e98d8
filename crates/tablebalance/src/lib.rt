// Balanced tables: the balanced table of a lent table, and a full run of it. Public calls, which refuse bad input.
// What a balanced table is stands in crate balance; what the calls answer, in specs/.
#![tactic(auto)]

mod refusal; // what is turned away

ghost use Rattle.std.specs.Prelude.{◌≡◌, ◌≤◌, length};
ghost use Rattle.refusals.specs.Answers.{outcome};
ghost use Rattle.refusals.specs.Buffers.{written};
ghost use Rattle.tablebalance.specs.Answers.{balance_checks, balance_buffer, balanced_answer, balanced_out, balanced_work};

use limits::TABLE_ROWS_MOST;
use refusals::Refusal;
use runs::FullRun;

// A table into the first places of a buffer. By place: `copy_from_slice` of so many values would call `memmove`, for which the library asks nowhere else.
fn copy(table: &[f64], out: &mut [f64])
    requires { length table.now ≤ length out.old }
    ensures { out.new ≡ written table.now out.old }
{
    for i in 0..table.len() {
        out[i] = table[i];
    }
}

// The balanced table of a table, into the first places of a lent buffer. Where the call is refused the buffer is unchanged.
#[tactic(auto, unfolding(crate::specs::Answers::balance_checks, crate::specs::Answers::balance_buffer, refusals::specs::Answers::answer))]
pub fn balanced_table(
    table: &[f64],
    rows: usize,
    columns: usize,
    out: &mut [f64],
) -> Result<(), Refusal>
    ensures value { result ≡ outcome (balance_checks table.now rows columns (length out.old)) tt }
    ensures out_after { out.new ≡ balance_buffer table.now rows columns out.old }
{
    refusal::check(table, rows, columns, out.len())?;
    let mut places = [0u64; TABLE_ROWS_MOST];
    let mut order = [0u16; TABLE_ROWS_MOST];
    let mut spare = [0u16; TABLE_ROWS_MOST];
    let total = table.len();
    copy(table, out);
    ranking::balance(
        &mut out[..total],
        rows,
        columns,
        &mut places[..rows],
        &mut order[..rows],
        &mut spare[..rows],
    );
    Ok(())
}

// The full run of the balanced table of a table. The first places of `out` then hold the balanced table, and the work buffer's plus zero;
// where the call is refused both are unchanged.
#[tactic(auto, unfolding(crate::specs::Answers::balanced_answer, crate::specs::Answers::balanced_out, crate::specs::Answers::balanced_work, stepdown::specs::Refusals::table_checks, refusals::specs::Answers::answer))]
pub fn balanced_run(
    table: &[f64],
    out: &mut [f64],
    work: &mut [f64],
    rows: usize,
    columns: usize,
    k: usize,
    a: usize,
    b: usize,
    observed: usize,
) -> Result<FullRun, Refusal>
    ensures value { result ≡ balanced_answer table.now rows columns k a b observed (length out.old) (length work.old) }
    ensures out_after { out.new ≡ balanced_out table.now rows columns k a b observed out.old (length work.old) }
    ensures work_after { work.new ≡ balanced_work table.now rows columns k a b observed (length out.old) work.old }
{
    stepdown::check_table_run(table, rows, columns, k, a, b, observed, work.len())?;
    let total = table.len();
    Refusal::Buffer.if_true(out.len() < total)?;
    balanced_table(table, rows, columns, out)?;
    stepdown::full_run(&out[..total], work, rows, columns, k, a, b, observed)
}
