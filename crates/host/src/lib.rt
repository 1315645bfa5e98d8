// The calls for hosts written in C. include/becardlarder.h documents them for a C programmer; a slice is a pointer and a length there.
// A table's sizes, k, the level and the observed row come one by one, and a refusal as 100 plus its number: the C interface.
// The definitions are in specs/, their laws in proofs/.
#![tactic(auto)]

pub mod adjusted; // the calls that tell adjusted figures
pub mod balanced; // the calls over balanced tables

ghost use Rattle.std.specs.Prelude.{◌≡◌, ◌≤◌, ◌<◌, T, map, length};
ghost use Rattle.refusals.specs.Buffers.{written};
ghost use Rattle.host.specs.Calls.{trial_verdicts_answer, trial_verdicts_buffer, table_verdicts_answer, table_verdicts_work, table_verdicts_buffer};
ghost use Rattle.host.specs.Internal.{Tellable, Told};
ghost use Rattle.verdicts.specs.Internal.{small_bytes};
ghost use Rattle.verdicts.specs.Verdicts.{verdict_byte};

use refusals::Refusal;
use runs::Verdict;
use trialrun::FileRun;

// The byte that tells a verdict: the rejecting step, 0 for kept, 255 for set aside.
fn byte_of(v: Verdict) -> u8
    requires { verdict_byte v < 256 }
    ensures { result ≡ verdict_byte v }
{
    verdicts::verdict_byte(v) as u8
}

// Those of all verdicts.
fn bytes_of(verdicts: [Verdict; 32]) -> [u8; 32]
    requires { T (small_bytes verdicts) }
    ensures { result ≡ map verdict_byte verdicts }
{
    verdicts.map(byte_of)
}

// Values into the first places of a buffer.
fn put<X: Copy>(values: &[X], out: &mut [X])
    requires { length values.now ≤ length out.old }
    ensures { out.new ≡ written values.now out.old }
{
    let n = values.len();
    out[..n].copy_from_slice(values);
}

// The verdicts of a file's run, whichever run it is: what the calls on a file answer.
fn tell(answer: Result<FileRun, Refusal>, verdicts: &mut [u8]) -> u32
    requires { Tellable answer }
    ensures { Told answer verdicts.old result verdicts.new }
{
    match answer {
        Ok(FileRun { trial, run }) => {
            let offers = trial.shape.offers;
            if verdicts.len() < offers {
                return 100 + u32::from(Refusal::Buffer);
            }
            put(&bytes_of(run.verdicts)[..offers], verdicts);
            verdicts::rejected_count(run.verdicts, offers) as u32
        }
        Err(refusal) => 100 + u32::from(refusal),
    }
}

// Runs the trial of a file. The result is the number of rejected offers, or 100 plus the refusal number.
// The buffer's first bytes then hold, per offer, the rejecting step, 0 where it is kept, or 255 where it is set aside; where the call is refused it is unchanged.
#[unsafe(no_mangle)]
pub extern "C" fn becardlarder_trial_verdicts(file: &[u8], verdicts: &mut [u8]) -> u32
    ensures value { result ≡ trial_verdicts_answer file.now (length verdicts.old) }
    ensures verdicts_after { verdicts.new ≡ trial_verdicts_buffer file.now verdicts.old }
{
    tell(trialrun::file_run(file), verdicts)
}

// Runs a table. The result is the number of rejected columns, or 100 plus the refusal number.
// The verdict buffer's first bytes then hold, per column, the rejecting step or 0, and the work buffer's first places plus zero, one for each row;
// where the call is refused both are unchanged.
#[unsafe(no_mangle)]
pub extern "C" fn becardlarder_table_verdicts(
    table: &[f64],
    rows: usize,
    columns: usize,
    k: usize,
    a: usize,
    b: usize,
    observed: usize,
    work: &mut [f64],
    verdicts: &mut [u8],
) -> u32
    ensures value { result ≡ table_verdicts_answer table.now rows columns k a b observed (length work.old) (length verdicts.old) }
    ensures work_after { work.new ≡ table_verdicts_work table.now rows columns k a b observed work.old (length verdicts.old) }
    ensures verdicts_after { verdicts.new ≡ table_verdicts_buffer table.now rows columns k a b observed (length work.old) verdicts.old }
{
    if verdicts.len() < columns {
        // The table's own refusals come first, and the work buffer's.
        let places = work.len();
        return match stepdown::check_table_run(table, rows, columns, k, a, b, observed, places) {
            Ok(()) => 100 + u32::from(Refusal::Buffer),
            Err(early) => 100 + u32::from(early),
        };
    }
    match stepdown::full_run(table, work, rows, columns, k, a, b, observed) {
        Ok(run) => {
            put(&bytes_of(run.verdicts)[..columns], verdicts);
            verdicts::rejected_count(run.verdicts, columns) as u32
        }
        Err(refusal) => 100 + u32::from(refusal),
    }
}
