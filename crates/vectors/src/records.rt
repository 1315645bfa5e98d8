// A trial given as a record: its check, its file, its table, its full run and its balanced one, with the lent buffers.
use super::pen::Pen;
use super::{answers, bits, tables, trials};
use trial::Trial;

fn check(rt: HostRuntime, t: Trial) {
    Pen::start(rt, b"check", 1, answers::number(trial::check(t))).end();
}

fn write(rt: HostRuntime, t: Trial, file: &mut [u8]) {
    let answer = trialwriter::write(t, file);
    answers::written(rt, b"write", answer, file);
}

fn table(rt: HostRuntime, t: Trial, cells: &mut [f64]) {
    tables::load(rt, cells);
    let answer = trialtable::table(t, cells);
    Pen::start(rt, b"table", 16, answers::number(answer))
        .each(cells, bits::of)
        .end();
}

fn full_run(rt: HostRuntime, t: Trial, cells: &mut [f64], work: &mut [f64]) {
    tables::load(rt, cells);
    let f = trialrun::full_run(t, cells, work);
    answers::full_run(rt, 24, f)
        .each(work, bits::of)
        .each(cells, bits::of)
        .end();
}

fn balanced_run(rt: HostRuntime, t: Trial, cells: &mut [f64], work: &mut [f64]) {
    tables::load(rt, cells);
    tables::load(rt, work);
    let f = trialbalance::balanced_run(t, cells, work);
    answers::full_run(rt, 8, f)
        .each(work, bits::of)
        .each(cells, bits::of)
        .end();
}

pub(crate) fn answer(rt: HostRuntime, file: &mut [u8], cells: &mut [f64], work: &mut [f64]) {
    let t = trials::read(rt);
    check(rt, t);
    write(rt, t, file);
    table(rt, t, cells);
    full_run(rt, t, cells, work);
    balanced_run(rt, t, cells, work);
}
