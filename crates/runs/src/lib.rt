// What the stepdown method speaks of: the state of a run from step to step, records, verdicts and full runs.
// The definitions are in specs/, their laws in proofs/.
#![tactic(auto)]

ghost use Rattle.std.specs.Prelude.{◌≡◌};
ghost use Rattle.runs.specs.FullRuns.{blank_run, told_run};

use refusals::Refusal;

// How far the method has got on a table, at e and over the live columns: bit j of `live` says that column j takes part,
// bit j of `rejected` that it is rejected.
#[derive(Clone, Copy)]
pub struct State {
    pub rows: usize,
    pub columns: usize,
    pub k: usize,
    pub e: usize,
    pub observed: usize,
    pub live: u32,
    pub rejected: u32,
    pub steps: usize,
    pub ended: bool,
}

// What a step leaves behind: its number, from 1, its critical value, and who set it: the lowest row
// whose k-max equals it, from 0, and that row's offer, by its position in the trial or table, from 1.
#[derive(Clone, Copy)]
pub struct Record {
    pub step: usize,
    pub critical: f64,
    pub row: usize,
    pub offer: usize,
}

// One step: the state after it, and its record.
#[derive(Clone, Copy)]
pub struct Step {
    pub state: State,
    pub logged: Record,
}

// A hypothesis (an offer) is rejected, with the step and its critical value, or kept, with the last critical value; one that is not live is set aside.
#[derive(Clone, Copy)]
pub enum Verdict {
    Rejected(usize, f64),
    Kept(f64),
    Aside,
}

// A full run: M, the rows of its table; e; how many steps; a record for each step; a verdict and a count for each column, and the
// count 0 for one that is set aside. Places that the steps and columns don't use are blank.
// Arrays of 32 places, and how many steps fill them: no heap, fixed memory.
#[derive(Clone, Copy)]
pub struct FullRun {
    pub rows: usize,
    pub e: usize,
    pub steps: usize,
    pub records: [Record; 32],
    pub verdicts: [Verdict; 32],
    pub counts: [usize; 32],
}

// A run of which nothing is told.
fn blank() -> FullRun
    ensures { result ≡ blank_run }
{
    let r = Record {
        step: 0,
        critical: 0.0,
        row: 0,
        offer: 0,
    };
    FullRun {
        rows: 0,
        e: 0,
        steps: 0,
        records: [r; 32],
        verdicts: [Verdict::Kept(0.0); 32],
        counts: [0usize; 32],
    }
}

// An answer as it is told: 0 and the run, or the number of the refusal and a blank run.
pub fn told(answer: Result<FullRun, Refusal>) -> (u32, FullRun)
    ensures { result ≡ told_run answer }
{
    match answer {
        Ok(run) => (0, run),
        Err(refusal) => (u32::from(refusal), blank()),
    }
}
