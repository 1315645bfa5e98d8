// The stepdown method over a lent table of f64 values, at a level a/b: full runs, and runs taken step by step.
// Public calls, which refuse bad input. No table is copied; the work buffer is lent.
#![tactic(auto)]

mod refusal; // what is turned away

ghost use Rattle.std.specs.Prelude.{◌≡◌, false, length};
ghost use Rattle.stepdown.specs.Runs.{state_of, resume};
ghost use Rattle.stepdown.specs.Refusals.{bad_figures};
ghost use Rattle.stepdown.specs.Answers.{begin_answer, step_answer, step_work, full_answer, full_work};

pub use refusal::check_table_run;
use refusals::Refusal;
use runs::{FullRun, Record, State};

// A run, by value. The level is a/b; bit j of `rejected` says that column j is rejected.
// The mask may be any 32 bits, and the level any two numbers: refusal 14 tells of a run that is handed over spoiled.
#[derive(Clone, Copy)]
pub struct Run {
    pub rows: usize,
    pub columns: usize,
    pub k: usize,
    pub a: usize,
    pub b: usize,
    pub observed: usize,
    pub rejected: u32,
    pub steps: usize,
    pub ended: bool,
}

// The state that a run with good figures is in: its e, and all columns live.
#[tactic(auto, using(crate::proofs::Spoiled::rows_most, crate::proofs::Spoiled::columns_most, crate::proofs::Spoiled::level_good))]
fn state_of(r: Run) -> State
    requires { bad_figures r ≡ false }
    ensures { result ≡ state_of r }
{
    State {
        rows: r.rows,
        columns: r.columns,
        k: r.k,
        e: engine::allowance(r.rows, r.a, r.b),
        observed: r.observed,
        live: masks::full_mask(r.columns),
        rejected: r.rejected,
        steps: r.steps,
        ended: r.ended,
    }
}

impl Run {
    // A run before step 1: nothing rejected, no step taken.
    #[tactic(auto, unfolding(crate::specs::Answers::begin_answer))]
    pub fn begin(
        rows: usize,
        columns: usize,
        k: usize,
        a: usize,
        b: usize,
        observed: usize,
    ) -> Result<Run, Refusal>
        ensures { result ≡ begin_answer rows columns k a b observed }
    {
        refusal::check_beginning(rows, columns, k, a, b, observed)?;
        Ok(Run {
            rows,
            columns,
            k,
            a,
            b,
            observed,
            rejected: 0,
            steps: 0,
            ended: false,
        })
    }

    // The run in the state after a step.
    fn resume(self, s: State) -> Run
        ensures { result ≡ resume self s }
    {
        Run {
            rejected: s.rejected,
            steps: s.steps,
            ended: s.ended,
            ..self
        }
    }

    // The next step over a lent table, with a work buffer of a place for each row.
    #[tactic(auto, unfolding(crate::specs::Answers::step_answer, crate::specs::Answers::step_work, refusals::specs::Answers::answer))]
    pub fn step(self, table: &[f64], work: &mut [f64]) -> Result<(Run, Record), Refusal>
        ensures value { result ≡ step_answer table.now self (length work.old) }
        ensures work_after { work.new ≡ step_work table.now self work.old }
    {
        refusal::check_step(self, table, work.len())?;
        let s = engine::step(state_of(self), table, work);
        engine::clear(work, self.rows);
        Ok((self.resume(s.state), s.logged))
    }
}

// All steps of a table at once: the same as stepping from the beginning.
// A slice and plain numbers: so the C calls hand a table over, and so the contract's clauses name them.
#[tactic(auto, unfolding(crate::specs::Answers::full_answer, crate::specs::Answers::full_work, crate::specs::Refusals::table_checks, refusals::specs::Answers::answer))]
pub fn full_run(
    table: &[f64],
    work: &mut [f64],
    rows: usize,
    columns: usize,
    k: usize,
    a: usize,
    b: usize,
    observed: usize,
) -> Result<FullRun, Refusal>
    ensures value { result ≡ full_answer table.now rows columns k a b observed (length work.old) }
    ensures work_after { work.new ≡ full_work table.now rows columns k a b observed work.old }
{
    check_table_run(table, rows, columns, k, a, b, observed, work.len())?;
    let e = engine::allowance(rows, a, b);
    let live = masks::full_mask(columns);
    Ok(engine::full_run(table, work, rows, columns, k, e, observed, live))
}
