// Runs, by themselves or over a view: begun, and step by step until a step is refused.
use super::pen::Pen;
use super::{answers, bits, input, tables};
use refusals::Refusal;
use runs::Record;
use stepdown::Run;

fn begin(rt: HostRuntime, r: Run, cells: &[f64]) -> Result<Run, Refusal> {
    if input::word(rt) != 0 {
        return view::begin_at(cells, r.rows, r.columns, r.k, r.a, r.b, r.observed);
    }
    Run::begin(r.rows, r.columns, r.k, r.a, r.b, r.observed)
}

// A run that is begun, as a line: 0 and the run, or the refusal. The values are not looked at.
pub(crate) fn answer_begin(rt: HostRuntime, cells: &[f64]) {
    match begin(rt, tables::run(rt), cells) {
        Ok(run) => answers::run(Pen::start(rt, b"begin", 10, 0), run).end(),
        Err(refusal) => Pen::start(rt, b"begin", 1, u32::from(refusal) as usize).end(),
    }
}

// A step goes by the run's sizes and not by the view's, which is one row here.
fn step(viewed: bool, r: Run, cells: &[f64], work: &mut [f64]) -> Result<(Run, Record), Refusal> {
    if viewed {
        return view::step_at(cells, 1, cells.len(), r, work);
    }
    r.step(cells, work)
}

// A step as a line: 0, the record and the run, or the refusal.
fn print(rt: HostRuntime, answer: Result<(Run, Record), Refusal>) {
    match answer {
        Ok((run, logged)) => {
            let p = answers::record(Pen::start(rt, b"step", 14, 0), logged);
            answers::run(p, run).end();
        }
        Err(refusal) => Pen::start(rt, b"step", 1, u32::from(refusal) as usize).end(),
    }
}

// At most 40 steps: a run has fewer.
fn every_step(rt: HostRuntime, viewed: bool, run: Run, cells: &[f64], work: &mut [f64]) {
    let mut r = run;
    for _ in 0..40 {
        let answer = step(viewed, r, cells, work);
        print(rt, answer);
        let Ok((next, _)) = answer else {
            return;
        };
        r = next;
    }
}

// A run as it is given, and the work buffer at the end.
pub(crate) fn answer(rt: HostRuntime, cells: &[f64], work: &mut [f64]) {
    let r = tables::run(rt);
    every_step(rt, input::word(rt) != 0, r, cells, work);
    Pen::start(rt, b"work", 16, work.len())
        .each(work, bits::of)
        .end();
}
