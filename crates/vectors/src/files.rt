// A file: what the reader answers, the full run of its trial, and the report.
use super::pen::Pen;
use super::{answers, input, trials};
use std::io::Read;

// A refused file is told as the blank trial.
fn read(rt: HostRuntime, file: &[u8]) {
    let answer = trialfile::read(file);
    let p = Pen::start(rt, b"read", 24, answers::number(answer));
    trials::print(p, answer.unwrap_or(trial::blank())).end();
}

// The run and the trial stand as a checksum: the report and the reader tell them.
fn full_run(rt: HostRuntime, file: &[u8]) {
    let answer = trialrun::file_run(file);
    let p = answers::full_run(rt, 0, answer.map(|f| f.run));
    let t = answer.map_or(trial::blank(), |f| f.trial);
    trials::print(p, t).end();
}

fn text(rt: HostRuntime, buffer: &[u8], length: usize) {
    let n = input::places_of(length, buffer);
    let _ = rt.write_all(&buffer[..n]);
}

// The report as it is, after a line that tells the answer and the buffer.
fn report(rt: HostRuntime, file: &[u8], buffer: &mut [u8]) {
    let answer = rendering::report(file, buffer);
    answers::written(rt, b"report", answer, buffer);
    text(rt, buffer, answer.unwrap_or(0));
}

fn every_call(rt: HostRuntime, file: &mut [u8], buffer: &mut [u8]) {
    let _ = rt.stdin().read_exact(file);
    read(rt, file);
    full_run(rt, file);
    report(rt, file, buffer);
}

pub(crate) fn answer(rt: HostRuntime, buffer: &mut [u8]) {
    let mut space = [0u8; 2048];
    let n = input::places_of(input::word(rt), &space);
    every_call(rt, &mut space[..n], buffer);
}
