// A table looked at through a view of the lent values. Its methods are few and thin: each puts the same question with the slice and
// the numbers, to a function whose contract says the same of them. The functions `.._at` make the view of plain parameters.
#![tactic(auto)]

ghost use Rattle.std.specs.Prelude.{◌≡◌, length};
ghost use Rattle.stepdown.specs.Answers.{begin_answer, step_answer, step_work, full_answer, full_work};
ghost use Rattle.view.specs.Entries.{entry_of};

use refusals::Refusal;
use runs::{FullRun, Record};
use stepdown::Run;

// A table of lent values, row after row.
#[derive(Clone, Copy)]
pub struct View<'a> {
    pub values: &'a [f64],
    pub rows: usize,
    pub columns: usize,
}

// The value at a row and a column, both from 0; none outside of the table, or where the slice has no such place.
#[tactic(auto, unfolding(crate::specs::Entries::entry_of))]
pub fn entry_at(
    values: &[f64],
    rows: usize,
    columns: usize,
    row: usize,
    column: usize,
) -> Option<f64>
    ensures { result ≡ entry_of values.now rows columns row column }
{
    if rows <= row || columns <= column {
        return None;
    }
    let at = row.checked_mul(columns)?.checked_add(column)?;
    values.get(at).copied()
}

impl<'a> View<'a> {
    ghost use Rattle.stepdown.specs.Answers.{begin_answer, step_answer, step_work, full_answer, full_work};
    ghost use Rattle.view.specs.Entries.{entry_of};

    // The full run of the table.
    pub fn full_run(
        self,
        work: &mut [f64],
        k: usize,
        a: usize,
        b: usize,
        observed: usize,
    ) -> Result<FullRun, Refusal>
        ensures value { result ≡ full_answer self.entry.values.now self.entry.rows self.entry.columns k a b observed (length work.old) }
        ensures work_after { work.new ≡ full_work self.entry.values.now self.entry.rows self.entry.columns k a b observed work.old }
    {
        stepdown::full_run(
            self.values,
            work,
            self.rows,
            self.columns,
            k,
            a,
            b,
            observed,
        )
    }

    // A run before step 1, with the sizes of the view. The values are looked at by its steps alone.
    pub fn begin(self, k: usize, a: usize, b: usize, observed: usize) -> Result<Run, Refusal>
        ensures { result ≡ begin_answer self.entry.rows self.entry.columns k a b observed }
    {
        Run::begin(self.rows, self.columns, k, a, b, observed)
    }

    // The next step of a run over the values. A run holds the sizes it was begun with, and the table's length is checked
    // against those (9). So the view's own rows and columns are not looked at: no refusal names a view whose sizes are not the run's,
    // and one here would make the answer another than that of the same step with the slice alone.
    pub fn step(self, run: Run, work: &mut [f64]) -> Result<(Run, Record), Refusal>
        ensures value { result ≡ step_answer self.entry.values.now run (length work.old) }
        ensures work_after { work.new ≡ step_work self.entry.values.now run work.old }
    {
        run.step(self.values, work)
    }

    // The value at a place.
    pub fn look(self, row: usize, column: usize) -> Option<f64>
        ensures { result ≡ entry_of self.entry.values.now self.entry.rows self.entry.columns row column }
    {
        entry_at(self.values, self.rows, self.columns, row, column)
    }
}

// The full run of lent values, through a view of them. Its parameters are plain, so a caller is proved as any other function is.
pub fn full_run_at(
    values: &[f64],
    work: &mut [f64],
    rows: usize,
    columns: usize,
    k: usize,
    a: usize,
    b: usize,
    observed: usize,
) -> Result<FullRun, Refusal>
    ensures value { result ≡ full_answer values.now rows columns k a b observed (length work.old) }
    ensures work_after { work.new ≡ full_work values.now rows columns k a b observed work.old }
{
    View {
        values,
        rows,
        columns,
    }
    .full_run(work, k, a, b, observed)
}

// A run before step 1, through a view of lent values.
pub fn begin_at(
    values: &[f64],
    rows: usize,
    columns: usize,
    k: usize,
    a: usize,
    b: usize,
    observed: usize,
) -> Result<Run, Refusal>
    ensures { result ≡ begin_answer rows columns k a b observed }
{
    View {
        values,
        rows,
        columns,
    }
    .begin(k, a, b, observed)
}

// The next step of a run, through a view of lent values.
pub fn step_at(
    values: &[f64],
    rows: usize,
    columns: usize,
    run: Run,
    work: &mut [f64],
) -> Result<(Run, Record), Refusal>
    ensures value { result ≡ step_answer values.now run (length work.old) }
    ensures work_after { work.new ≡ step_work values.now run work.old }
{
    View {
        values,
        rows,
        columns,
    }
    .step(run, work)
}

// The value at a place, through a view of lent values.
pub fn look_at(
    values: &[f64],
    rows: usize,
    columns: usize,
    row: usize,
    column: usize,
) -> Option<f64>
    ensures { result ≡ entry_of (values.now) rows columns row column }
{
    View {
        values,
        rows,
        columns,
    }
    .look(row, column)
}
