// The report of a trial file, as text: head, steps, offers and end, or the file's refusal; and the same of the balanced table.
// The definitions are in specs/, their laws in proofs/.
#![tactic(auto)]

mod lines; // the lines of a report

ghost use Rattle.std.specs.Prelude.{◌≡◌, ◌≤◌, length, IfOk};
ghost use Rattle.limits.specs.Limits.{offers_most, longest_report};
ghost use Rattle.text.specs.Renderings.{text_answer, after_text};
ghost use Rattle.rendering.specs.Reports.{trial_text, balanced_report_of};
ghost use Rattle.rendering.specs.Renderings.{rendering_of, after_rendering};
ghost use Rattle.rendering.specs.Internal.{text_of, Printable, PrintableFile};

use crate::lines::Page;
use refusals::Refusal;
use runs::FullRun;
use trial::Trial;
use trialrun::FileRun;

// the report of a trial with this full run
#[tactic(auto, unfolding(crate::specs::Reports::trial_text))]
fn trial_report(t: Trial, run: FullRun) -> Page
    requires few { t.shape.offers ≤ offers_most }
    requires printable { Printable offers_most run }
    requires room { length (trial_text t run) ≤ longest_report }
    ensures { result.bytes ≡ trial_text t run }
{
    let (shape, labels) = (t.shape, t.labels);
    let mut page = Page::new();
    lines::head(&mut page, shape, run);
    lines::steps(&mut page, labels, run);
    lines::offers(&mut page, labels, shape.offers, run);
    let n = verdicts::rejected_count(run.verdicts, shape.offers);
    text::push_numbered(&mut page, "end", n);
    page
}

// the text for what a file's full run answers
fn compose(answer: Result<FileRun, Refusal>) -> Page
    requires printable { IfOk answer PrintableFile }
    requires room { length (text_of answer) ≤ longest_report }
    ensures { result.bytes ≡ text_of answer }
{
    match answer {
        Ok(f) => trial_report(f.trial, f.run),
        Err(refusal) => {
            let mut page = Page::new();
            text::push_numbered(&mut page, "refused", u32::from(refusal) as usize);
            page
        }
    }
}

// The report of a file, or its refusal, as text into the buffer's first places: its length. Where the buffer is too short it is unchanged.
pub fn report(file: &[u8], out: &mut [u8]) -> Result<usize, Refusal>
    ensures value { result ≡ rendering_of file.now (length out.old) }
    ensures out_after { out.new ≡ after_rendering file.now out.old }
{
    text::give(compose(trialrun::file_run(file)).as_bytes(), out)
}

// The same of the balanced table of the file's trial.
pub fn balanced_report(file: &[u8], out: &mut [u8]) -> Result<usize, Refusal>
    ensures value { result ≡ text_answer (balanced_report_of file.now) (length out.old) }
    ensures out_after { out.new ≡ after_text (balanced_report_of file.now) out.old }
{
    text::give(
        compose(trialbalance::file_balanced_run(file)).as_bytes(),
        out,
    )
}
