// What the engine answers, as numbers of a line: refusals, runs and full runs.
use super::bits;
use super::pen::Pen;
use refusals::Refusal;
use runs::{FullRun, Record, Verdict};
use stepdown::Run;

// 0, or the number of the refusal.
pub(crate) fn number<X: Copy>(answer: Result<X, Refusal>) -> usize {
    match answer {
        Ok(_) => 0,
        Err(refusal) => u32::from(refusal) as usize,
    }
}

// A line of a call that writes bytes: its refusal, the length that it tells, 0 where it is refused, and the buffer.
pub(crate) fn written(rt: HostRuntime, name: &[u8], answer: Result<usize, Refusal>, buffer: &[u8]) {
    Pen::start(rt, name, 2, number(answer))
        .put(answer.unwrap_or(0))
        .each(buffer, usize::from)
        .end();
}

// A run: its figures, its rejected set, its steps, whether it has ended.
pub(crate) fn run(p: Pen, r: Run) -> Pen {
    p.put(r.rows)
        .put(r.columns)
        .put(r.k)
        .put(r.a)
        .put(r.b)
        .put(r.observed)
        .put(r.rejected as usize)
        .put(r.steps)
        .put(usize::from(r.ended))
}

// A record: the step, its critical value, and the row and the offer that set it.
pub(crate) fn record(p: Pen, r: Record) -> Pen {
    p.put(r.step)
        .put(bits::of(r.critical))
        .put(r.row)
        .put(r.offer)
}

// A verdict: its number (the rejecting step, 0 for kept, 255 for set aside), as the library tells it and as its case does, and the critical value, plus zero where it has none.
fn verdict(p: Pen, v: Verdict) -> Pen {
    let q = p.put(verdicts::verdict_byte(v));
    match v {
        Verdict::Rejected(step, critical) => q.put(step).put(bits::of(critical)),
        Verdict::Kept(critical) => q.put(0).put(bits::of(critical)),
        Verdict::Aside => q.put(255).put(bits::of(0.0)),
    }
}

fn places(p: Pen, f: FullRun) -> Pen {
    let mut q = p;
    for ((logged, v), count) in f.records.iter().zip(&f.verdicts).zip(&f.counts) {
        q = verdict(record(q, *logged), *v).put(*count);
    }
    q
}

// A line of a full run: the refusal, the steps, how many are rejected; then each place of its lists. A refused run is told as a blank one.
pub(crate) fn full_run(rt: HostRuntime, room: usize, answer: Result<FullRun, Refusal>) -> Pen {
    let (refusal, f) = runs::told(answer);
    let p = Pen::start(rt, b"run", room, refusal as usize)
        .put(f.steps)
        .put(verdicts::rejected_count(f.verdicts, 32));
    places(p, f)
}
