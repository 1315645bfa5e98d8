// A lent table: read from the input, and put to the calls, by themselves or through a view.
use super::pen::Pen;
use super::{answers, bits, input};
use refusals::Refusal;
use runs::FullRun;
use stepdown::Run;

// The value that stands a period before place i, or 0 where none does.
fn earlier(cells: &[f64], i: usize, period: usize) -> f64 {
    i.checked_sub(period)
        .and_then(|j| cells.get(j))
        .copied()
        .unwrap_or(0.0)
}

// The values of the whole buffer: so many stand in the input, and each later one is the one that stands a period before it.
pub(crate) fn load(rt: HostRuntime, cells: &mut [f64]) {
    let written = input::word(rt);
    let period = input::word(rt);
    for i in 0..cells.len() {
        cells[i] = if i < written {
            bits::value(input::word(rt))
        } else {
            earlier(cells, i, period)
        };
    }
}

// The figures of a run, whatever they are.
pub(crate) fn run(rt: HostRuntime) -> Run {
    Run {
        rows: input::word(rt),
        columns: input::word(rt),
        k: input::word(rt),
        a: input::word(rt),
        b: input::word(rt),
        observed: input::word(rt),
        rejected: (input::word(rt) % 4294967296) as u32,
        steps: input::word(rt),
        ended: input::word(rt) != 0,
    }
}

fn full_run(rt: HostRuntime, r: Run, cells: &[f64], work: &mut [f64]) -> Result<FullRun, Refusal> {
    if input::word(rt) != 0 {
        return view::full_run_at(cells, work, r.rows, r.columns, r.k, r.a, r.b, r.observed);
    }
    stepdown::full_run(cells, work, r.rows, r.columns, r.k, r.a, r.b, r.observed)
}

// The full run of a table with a run's figures, and the work buffer.
pub(crate) fn answer(rt: HostRuntime, cells: &[f64], work: &mut [f64]) {
    let f = full_run(rt, run(rt), cells, work);
    answers::full_run(rt, 24, f).each(work, bits::of).end();
}

fn balanced(rt: HostRuntime, r: Run, cells: &[f64], out: &mut [f64], work: &mut [f64]) {
    let f = tablebalance::balanced_run(
        cells, out, work, r.rows, r.columns, r.k, r.a, r.b, r.observed,
    );
    answers::full_run(rt, 24, f)
        .each(work, bits::of)
        .each(out, bits::of)
        .end();
}

// The balanced full run, the work buffer and the buffer of the balanced table, each of whose places holds 7 before.
pub(crate) fn answer_balanced(rt: HostRuntime, cells: &[f64], work: &mut [f64]) {
    let r = run(rt);
    let mut out = [7.0f64; 4104];
    let n = input::places_of(input::word(rt), &out);
    balanced(rt, r, cells, &mut out[..n], work);
}

// The value at a place of a view, by rows, columns, row and column: 1 and the value, or 0.
pub(crate) fn answer_look(rt: HostRuntime, cells: &[f64]) {
    let rows = input::word(rt);
    let columns = input::word(rt);
    let row = input::word(rt);
    let column = input::word(rt);
    match view::look_at(cells, rows, columns, row, column) {
        Some(x) => Pen::start(rt, b"look", 2, 1).put(bits::of(x)).end(),
        None => Pen::start(rt, b"look", 1, 0).end(),
    }
}
