// All steps of a run: their records and rejected sets, and the verdicts read off them.
ghost use Rattle.std.specs.Prelude.{◌≡◌, false, cond, ◌<◌, ◌≤◌, ◌^◌, length, drop};
ghost use Rattle.order.specs.Lists.{rows_of};
ghost use Rattle.refusals.specs.Buffers.{cleared};
ghost use Rattle.runs.specs.Stepdown.{steps_of, first_state, full_run};
ghost use Rattle.runs.specs.FullRuns.{accepted_run};
ghost use Rattle.columns.specs.Columns.{in_set};
ghost use Rattle.masks.specs.Internal.{CheckedTable};
ghost use Rattle.engine.specs.Internal.{CanStep, Traced, trace_of, noted_at, verdict_in, told_in, finished_run};

use super::steps;
use masks::Table;
use runs::{FullRun, Record, State, Step, Verdict};

// The records of the steps taken and the rejected sets after them: two arrays, since a full run takes that of the records over as it is.
#[derive(Clone, Copy)]
pub struct Trace {
    pub steps: usize,
    pub records: [Record; 32],
    pub sets: [u32; 32],
}

fn noted(t: Trace, i: usize, s: Step) -> Trace
    requires { i < 32 }
    ensures { result ≡ noted_at t i s }
{
    let mut u = t;
    u.records[i] = s.logged;
    u.sets[i] = s.state.rejected;
    u.steps = i + 1;
    u
}

// Steps from the start until one has ended; 32 are enough.
fn all_steps(start: State, table: &[f64], work: &mut [f64]) -> Trace
    requires { (start.ended ≡ false → CanStep table.now start) × (start.rows ≤ length work.old) × (start.steps ≡ 0) }
    ensures { (result ≡ trace_of (steps_of (rows_of start.rows start.columns table.now) start)) × (drop start.rows work.new ≡ drop start.rows work.old) }
{
    let blank = Record {
        step: 0,
        critical: 0.0,
        row: 0,
        offer: 0,
    };
    let mut t = Trace {
        steps: 0,
        records: [blank; 32],
        sets: [0u32; 32],
    };
    let mut state = start;
    for i in 0..32 {
        if state.ended {
            return t;
        }
        let s = steps::step(state, table, work);
        t = noted(t, i, s);
        state = s.state;
    }
    t
}

// A live column j is rejected by the first step after which it is rejected, or kept with the last critical value.
fn verdict(t: Trace, j: usize) -> Verdict
    requires { Traced t × (j < 32) }
    ensures { result ≡ verdict_in t j }
{
    let n = t.steps;
    let mut last: f64 = 0.0;
    for i in 0..n {
        let logged = t.records[i];
        let set = t.sets[i];
        if (set >> j) % 2 == 1 {
            return Verdict::Rejected(logged.step, logged.critical);
        }
        last = logged.critical;
    }
    Verdict::Kept(last)
}

// Column j's verdict; one that is not live is set aside.
fn verdict_at(t: Trace, live: u32, j: usize) -> Verdict
    requires { Traced t × (j < 32) }
    ensures { result ≡ told_in live t j }
{
    if (live >> j) % 2 == 1 {
        return verdict(t, j);
    }
    Verdict::Aside
}

// Column j's count n; one that is not live has none.
fn count_at(n: usize, live: u32, j: usize) -> usize
    requires { j < 32 }
    ensures { result ≡ cond (in_set live j) n 0 }
{
    if (live >> j) % 2 == 1 {
        return n;
    }
    0
}

// The full run that a trace makes: M, e, verdicts and counts of the columns.
fn finish(
    t: Trace,
    table: &[f64],
    rows: usize,
    columns: usize,
    k: usize,
    e: usize,
    observed: usize,
    live: u32,
) -> FullRun
    requires { CheckedTable table.now rows columns k × (observed < rows) × Traced t }
    ensures { result ≡ finished_run t table.now rows columns e observed live }
{
    let all = critical::at_least(
        Table {
            values: table,
            rows,
            columns,
            k,
        },
        observed,
    );
    let mut verdicts = [Verdict::Kept(0.0); 32];
    let mut counts = [0usize; 32];
    for j in 0..columns {
        verdicts[j] = verdict_at(t, live, j);
        counts[j] = count_at(all[j], live, j);
    }
    let records = t.records;
    FullRun {
        rows,
        e,
        steps: t.steps,
        records,
        verdicts,
        counts,
    }
}

// The full run over the columns of `live`. Where fewer than k are live no step is taken.
pub fn full_run(
    table: &[f64],
    work: &mut [f64],
    rows: usize,
    columns: usize,
    k: usize,
    e: usize,
    observed: usize,
    live: u32,
) -> FullRun
    requires { CheckedTable table.now rows columns k × (e < rows) × (observed < rows) × (live < 2 ^ columns) × (rows ≤ length work.old) }
    ensures value { result ≡ accepted_run (full_run (rows_of rows columns table.now) (first_state rows columns k e observed live)) }
    ensures work_after { work.new ≡ cleared rows work.old }
{
    let size = masks::size_of(columns, live);
    let few = size < k;
    let start = State {
        rows,
        columns,
        k,
        e,
        observed,
        live,
        rejected: 0,
        steps: 0,
        ended: few,
    };
    let t = all_steps(start, table, work);
    steps::clear(work, rows);
    finish(t, table, rows, columns, k, e, observed, live)
}
