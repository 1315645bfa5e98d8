// The calls that only the benchmark makes (docs/BENCHMARKS.md): they hand out whole answers, so that an answer can be compared and no part of it is left uncomputed.
// Each answers 0 or the refusal number; a refused call changes no lent place. The definitions are in specs/, their laws in proofs/.
// Numbers for kinds and refusals, and parts in arrays of their own: the C interface. An array goes into a place through a variable, since the
// check does not cover one that is stored straight from a field.
#![tactic(auto)]

ghost use Rattle.std.specs.Prelude.{◌≡◌, map, length};
ghost use Rattle.verdicts.specs.Verdicts.{verdict_byte};
ghost use Rattle.stepdown.specs.Refusals.{table_run_refusal};
ghost use Rattle.stepdown.specs.Answers.{full_work};
ghost use Rattle.trial.specs.Lent.{table_call_refusal, table_buffer};
ghost use Rattle.trialfile.specs.Files.{file_refusal};
ghost use Rattle.trialwriter.specs.Writings.{write_refusal, after_writing};
ghost use Rattle.rendering.specs.Renderings.{render_refusal, after_rendering};
ghost use Rattle.benchcalls.specs.Calls.{layout_numbers, design_from, numbers_of, codes_of, digits_of, figures_of, trial_from, logged_in, steps_in, criticals_in, bar_rows_in, bar_offers_in, counts_in, verdicts_of, from_file, length_written, length_rendered, from_table};

use limits::{FIGURES_MOST, OFFERS_MOST};
use runs::{Record, Verdict};
use trial::{Design, Labels, Level, Shape, Trial};

// How a trial was laid out, as numbers: the kind of its shape word, pairs or shops, and the treated shops, 0 for pairs.
fn layout(d: Design) -> [usize; 3]
    ensures { result ≡ layout_numbers d }
{
    match d {
        Design::Paired(pairs) => [2, pairs, 0],
        Design::Unpaired(shops, treated) => [5, shops, treated],
    }
}

// The parts of a trial into arrays, the first one a, b, k, offers and the layout.
fn take_apart(
    t: Trial,
    numbers: &mut [usize; 7],
    codes: &mut [u32; OFFERS_MOST],
    digits: &mut [u8; OFFERS_MOST],
    figures: &mut [i32; FIGURES_MOST],
)
    ensures numbers_after { numbers.new ≡ numbers_of t }
    ensures codes_after { codes.new ≡ codes_of t }
    ensures digits_after { digits.new ≡ digits_of t }
    ensures figures_after { figures.new ≡ figures_of t }
{
    let shape = t.shape;
    let [kind, units, treated] = layout(shape.design);
    *numbers = [
        t.level.a,
        t.level.b,
        shape.k,
        shape.offers,
        kind,
        units,
        treated,
    ];
    let Labels {
        codes: c,
        digits: g,
    } = t.labels;
    *codes = c;
    *digits = g;
    let d = t.figures;
    *figures = d;
}

// Reads a file. The arrays then hold its trial, the first one a, b, k, offers and the layout: kind, pairs or shops, treated.
#[unsafe(no_mangle)]
pub extern "C" fn bench_read(
    file: &[u8],
    numbers: &mut [usize; 7],
    codes: &mut [u32; OFFERS_MOST],
    digits: &mut [u8; OFFERS_MOST],
    figures: &mut [i32; FIGURES_MOST],
) -> u32
    ensures value { result ≡ file_refusal file.now }
    ensures numbers_after { numbers.new ≡ from_file numbers_of file.now numbers.old }
    ensures codes_after { codes.new ≡ from_file codes_of file.now codes.old }
    ensures digits_after { digits.new ≡ from_file digits_of file.now digits.old }
    ensures figures_after { figures.new ≡ from_file figures_of file.now figures.old }
{
    match trialfile::read(file) {
        Ok(t) => {
            take_apart(t, numbers, codes, digits, figures);
            0
        }
        Err(unread) => u32::from(unread),
    }
}

// The layout of these numbers: of pairs where the kind is 2, and else of shops.
fn design_of(kind: usize, units: usize, treated: usize) -> Design
    ensures { result ≡ design_from kind units treated }
{
    if kind == 2 {
        return Design::Paired(units);
    }
    Design::Unpaired(units, treated)
}

// The trial of these numbers and arrays.
fn put_together(
    numbers: &[usize; 7],
    codes: &[u32; OFFERS_MOST],
    digits: &[u8; OFFERS_MOST],
    figures: &[i32; FIGURES_MOST],
) -> Trial
    ensures { result ≡ trial_from numbers.now codes.now digits.now figures.now }
{
    Trial {
        level: Level {
            a: numbers[0],
            b: numbers[1],
        },
        shape: Shape {
            k: numbers[2],
            offers: numbers[3],
            design: design_of(numbers[4], numbers[5], numbers[6]),
        },
        labels: Labels {
            codes: *codes,
            digits: *digits,
        },
        figures: *figures,
    }
}

// Writes the trial of these numbers and arrays into the buffer's first bytes, and the length of the file into its place.
#[unsafe(no_mangle)]
pub extern "C" fn bench_write(
    numbers: &[usize; 7],
    codes: &[u32; OFFERS_MOST],
    digits: &[u8; OFFERS_MOST],
    figures: &[i32; FIGURES_MOST],
    out: &mut [u8],
    written: &mut usize,
) -> u32
    ensures value { result ≡ write_refusal (trial_from numbers.now codes.now digits.now figures.now) (length out.old) }
    ensures out_after { out.new ≡ after_writing (trial_from numbers.now codes.now digits.now figures.now) out.old }
    ensures written_after { written.new ≡ length_written (trial_from numbers.now codes.now digits.now figures.now) (length out.old) written.old }
{
    let t = put_together(numbers, codes, digits, figures);
    match trialwriter::write(t, out) {
        Ok(length) => {
            *written = length;
            0
        }
        Err(unwritten) => u32::from(unwritten),
    }
}

// Makes the table of the trial of these numbers and arrays in the buffer's first places, row after row.
#[unsafe(no_mangle)]
pub extern "C" fn bench_trial_table(
    numbers: &[usize; 7],
    codes: &[u32; OFFERS_MOST],
    digits: &[u8; OFFERS_MOST],
    figures: &[i32; FIGURES_MOST],
    out: &mut [f64],
) -> u32
    ensures value { result ≡ table_call_refusal (trial_from numbers.now codes.now digits.now figures.now) (length out.old) }
    ensures out_after { out.new ≡ table_buffer (trial_from numbers.now codes.now digits.now figures.now) out.old }
{
    let t = put_together(numbers, codes, digits, figures);
    match trialtable::table(t, out) {
        Ok(()) => 0,
        Err(unmade) => u32::from(unmade),
    }
}

// Puts the report of a file into the buffer's first bytes, and the length of the text into its place.
#[unsafe(no_mangle)]
pub extern "C" fn bench_report(file: &[u8], text: &mut [u8], written: &mut usize) -> u32
    ensures value { result ≡ render_refusal file.now (length text.old) }
    ensures text_after { text.new ≡ after_rendering file.now text.old }
    ensures written_after { written.new ≡ length_rendered file.now (length text.old) written.old }
{
    match rendering::report(file, text) {
        Ok(printed) => {
            *written = printed;
            0
        }
        Err(unprinted) => u32::from(unprinted),
    }
}

// The records of a full run, field by field.
#[derive(Clone, Copy)]
pub struct Logged {
    pub criticals: [f64; 32],
    pub rows: [usize; 32],
    pub offers: [usize; 32],
}

fn logged_in(records: [Record; 32]) -> Logged
    ensures { result ≡ logged_in records }
{
    Logged {
        criticals: records.map(|r| r.critical),
        rows: records.map(|r| r.row),
        offers: records.map(|r| r.offer),
    }
}

// The numbers that tell verdicts: the rejecting step, 0 for kept. (No column of a table is set aside.)
fn bytes_of(verdicts: [Verdict; 32]) -> [usize; 32]
    ensures { result ≡ map verdict_byte verdicts }
{
    verdicts.map(verdicts::verdict_byte)
}

// The full run of a table: how many steps, the critical value of each and the row and the offer that set it, and for each column the count and the verdict, which is the rejecting step or 0.
#[unsafe(no_mangle)]
pub extern "C" fn bench_table(
    table: &[f64],
    rows: usize,
    columns: usize,
    k: usize,
    a: usize,
    b: usize,
    observed: usize,
    work: &mut [f64],
    steps: &mut usize,
    criticals: &mut [f64; 32],
    barrows: &mut [usize; 32],
    baroffers: &mut [usize; 32],
    counts: &mut [usize; 32],
    verdicts: &mut [usize; 32],
) -> u32
    ensures value { result ≡ table_run_refusal table.now rows columns k a b observed (length work.old) }
    ensures work_after { work.new ≡ full_work table.now rows columns k a b observed work.old }
    ensures steps_after { steps.new ≡ from_table steps_in table.now rows columns k a b observed (length work.old) steps.old }
    ensures criticals_after { criticals.new ≡ from_table criticals_in table.now rows columns k a b observed (length work.old) criticals.old }
    ensures barrows_after { barrows.new ≡ from_table bar_rows_in table.now rows columns k a b observed (length work.old) barrows.old }
    ensures baroffers_after { baroffers.new ≡ from_table bar_offers_in table.now rows columns k a b observed (length work.old) baroffers.old }
    ensures counts_after { counts.new ≡ from_table counts_in table.now rows columns k a b observed (length work.old) counts.old }
    ensures verdicts_after { verdicts.new ≡ from_table verdicts_of table.now rows columns k a b observed (length work.old) verdicts.old }
{
    match stepdown::full_run(table, work, rows, columns, k, a, b, observed) {
        Ok(run) => {
            *steps = run.steps;
            let Logged {
                criticals: c,
                rows: g,
                offers: o,
            } = logged_in(run.records);
            *criticals = c;
            *barrows = g;
            *baroffers = o;
            let n = run.counts;
            *counts = n;
            let s = bytes_of(run.verdicts);
            *verdicts = s;
            0
        }
        Err(refusal) => u32::from(refusal),
    }
}
