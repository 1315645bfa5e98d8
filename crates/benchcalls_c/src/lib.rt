// The static library of the calls that only the benchmark makes (docs/BENCHMARKS.md): each export is the call of the library `benchcalls` of that name, with its clauses.
// Each stands here once more: a static library exports what its own crate names.
#![tactic(auto)]

ghost use Rattle.std.specs.Prelude.{◌≡◌, length};
ghost use Rattle.stepdown.specs.Refusals.{table_run_refusal};
ghost use Rattle.stepdown.specs.Answers.{full_work};
ghost use Rattle.trial.specs.Lent.{table_call_refusal, table_buffer};
ghost use Rattle.trialfile.specs.Files.{file_refusal};
ghost use Rattle.trialwriter.specs.Writings.{write_refusal, after_writing};
ghost use Rattle.rendering.specs.Renderings.{render_refusal, after_rendering};
ghost use Rattle.benchcalls.specs.Calls.{numbers_of, codes_of, digits_of, figures_of, trial_from, steps_in, criticals_in, bar_rows_in, bar_offers_in, counts_in, verdicts_of, from_file, length_written, length_rendered, from_table};

use limits::{FIGURES_MOST, OFFERS_MOST};

// Reads a file. The arrays then hold its trial, the first one a, b, k, offers and the layout: kind, pairs or shops, treated.
#[unsafe(no_mangle)]
pub extern "C" fn bench_read(
    file: &[u8],
    numbers: &mut [usize; 7],
    codes: &mut [u32; OFFERS_MOST],
    digits: &mut [u8; OFFERS_MOST],
    figures: &mut [i32; FIGURES_MOST],
) -> u32
    ensures value { result ≡ file_refusal file.now }
    ensures numbers_after { numbers.new ≡ from_file numbers_of file.now numbers.old }
    ensures codes_after { codes.new ≡ from_file codes_of file.now codes.old }
    ensures digits_after { digits.new ≡ from_file digits_of file.now digits.old }
    ensures figures_after { figures.new ≡ from_file figures_of file.now figures.old }
{
    benchcalls::bench_read(file, numbers, codes, digits, figures)
}

// Writes the trial of these numbers and arrays into the buffer's first bytes, and the length of the file into its place.
#[unsafe(no_mangle)]
pub extern "C" fn bench_write(
    numbers: &[usize; 7],
    codes: &[u32; OFFERS_MOST],
    digits: &[u8; OFFERS_MOST],
    figures: &[i32; FIGURES_MOST],
    out: &mut [u8],
    written: &mut usize,
) -> u32
    ensures value { result ≡ write_refusal (trial_from numbers.now codes.now digits.now figures.now) (length out.old) }
    ensures out_after { out.new ≡ after_writing (trial_from numbers.now codes.now digits.now figures.now) out.old }
    ensures written_after { written.new ≡ length_written (trial_from numbers.now codes.now digits.now figures.now) (length out.old) written.old }
{
    benchcalls::bench_write(numbers, codes, digits, figures, out, written)
}

// Makes the table of the trial of these numbers and arrays in the buffer's first places, row after row.
#[unsafe(no_mangle)]
pub extern "C" fn bench_trial_table(
    numbers: &[usize; 7],
    codes: &[u32; OFFERS_MOST],
    digits: &[u8; OFFERS_MOST],
    figures: &[i32; FIGURES_MOST],
    out: &mut [f64],
) -> u32
    ensures value { result ≡ table_call_refusal (trial_from numbers.now codes.now digits.now figures.now) (length out.old) }
    ensures out_after { out.new ≡ table_buffer (trial_from numbers.now codes.now digits.now figures.now) out.old }
{
    benchcalls::bench_trial_table(numbers, codes, digits, figures, out)
}

// Puts the report of a file into the buffer's first bytes, and the length of the text into its place.
#[unsafe(no_mangle)]
pub extern "C" fn bench_report(file: &[u8], text: &mut [u8], written: &mut usize) -> u32
    ensures value { result ≡ render_refusal file.now (length text.old) }
    ensures text_after { text.new ≡ after_rendering file.now text.old }
    ensures written_after { written.new ≡ length_rendered file.now (length text.old) written.old }
{
    benchcalls::bench_report(file, text, written)
}

// The full run of a table: how many steps, the critical value of each and the row and the offer that set it, and for each column the count and the verdict, which is the rejecting step or 0.
#[unsafe(no_mangle)]
pub extern "C" fn bench_table(
    table: &[f64],
    rows: usize,
    columns: usize,
    k: usize,
    a: usize,
    b: usize,
    observed: usize,
    work: &mut [f64],
    steps: &mut usize,
    criticals: &mut [f64; 32],
    barrows: &mut [usize; 32],
    baroffers: &mut [usize; 32],
    counts: &mut [usize; 32],
    verdicts: &mut [usize; 32],
) -> u32
    ensures value { result ≡ table_run_refusal table.now rows columns k a b observed (length work.old) }
    ensures work_after { work.new ≡ full_work table.now rows columns k a b observed work.old }
    ensures steps_after { steps.new ≡ from_table steps_in table.now rows columns k a b observed (length work.old) steps.old }
    ensures criticals_after { criticals.new ≡ from_table criticals_in table.now rows columns k a b observed (length work.old) criticals.old }
    ensures barrows_after { barrows.new ≡ from_table bar_rows_in table.now rows columns k a b observed (length work.old) barrows.old }
    ensures baroffers_after { baroffers.new ≡ from_table bar_offers_in table.now rows columns k a b observed (length work.old) baroffers.old }
    ensures counts_after { counts.new ≡ from_table counts_in table.now rows columns k a b observed (length work.old) counts.old }
    ensures verdicts_after { verdicts.new ≡ from_table verdicts_of table.now rows columns k a b observed (length work.old) verdicts.old }
{
    benchcalls::bench_table(
        table, rows, columns, k, a, b, observed, work, steps, criticals, barrows, baroffers,
        counts, verdicts,
    )
}
