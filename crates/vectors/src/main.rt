// The test program: reads cases from standard input and prints what the library answers to each. tests/frames.py tells the input,
// tests/answers.py the output.
#![tactic(auto)]

mod answers; // runs and full runs as numbers of a line
mod bits; // f64 values as numbers
mod files; // cases of a file: reader, full run, report
mod input; // the numbers of the input
mod pen; // the lines of the output
mod records; // cases of a trial given as a record
mod steps; // cases of runs: their beginning, their steps
mod tables; // cases of a lent table: full runs, balanced ones, and places of a view
mod trials; // trials in the input and in the output

use pen::Pen;

// A case of a table, which the input tells first.
fn over_table(rt: HostRuntime, kind: usize, cells: &mut [f64], work: &mut [f64]) {
    tables::load(rt, cells);
    match kind {
        4 => tables::answer(rt, cells, work),
        5 => steps::answer_begin(rt, cells),
        6 => steps::answer(rt, cells, work),
        8 => tables::answer_balanced(rt, cells, work),
        _ => tables::answer_look(rt, cells),
    }
}

// The first case is the seed of the generated ones, as the input tells it. A kind stands as the input's number: an enum would be this match
// once more, to make it.
fn answer(rt: HostRuntime, kind: usize, bytes: &mut [u8], cells: &mut [f64], work: &mut [f64]) {
    match kind {
        1 => Pen::start(rt, b"seed", 1, input::word(rt)).end(),
        2 => files::answer(rt, bytes),
        3 => records::answer(rt, bytes, cells, work),
        _ => over_table(rt, kind, cells, work),
    }
}

// A case: its kind, the rooms of the buffers that are lent, and what its kind needs. Each place of a buffer holds 7; the cells are
// told by the case.
fn lend(rt: HostRuntime, kind: usize, space: &mut [f64]) {
    let mut bytes = [7u8; 3072];
    let mut work = [7.0f64; 4104];
    let k = input::places_of(input::word(rt), &bytes);
    let n = input::places_of(input::word(rt), space);
    let m = input::places_of(input::word(rt), &work);
    answer(rt, kind, &mut bytes[..k], &mut space[..n], &mut work[..m]);
}

// One case. False where the input has ended.
fn one(rt: HostRuntime, space: &mut [f64]) -> bool {
    let kind = input::word(rt);
    if kind == 0 {
        return false;
    }
    lend(rt, kind, space);
    true
}

// Cases until the input ends.
fn every_case(rt: HostRuntime, space: &mut [f64]) {
    for _ in 0..1000000 {
        if !one(rt, space) {
            return;
        }
    }
}

// Room for the largest table: 4,096 rows of 33 columns.
fn main(rt: HostRuntime) {
    let mut space = [0.0f64; 135168];
    every_case(rt, &mut space);
}
