// The lines of a report, each put after what the page holds.
ghost use Rattle.std.specs.Prelude.{◌≡◌, ◌++◌, ◌+◌, ◌≤◌, length, T};
ghost use Rattle.std.specs.Float.{binary64};
ghost use Rattle.std.specs.Float.Ieee.{fits, in_signed};
ghost use Rattle.arrayvec.specs.ArrayString.{array_string_len};
ghost use Rattle.text.specs.Ascii.{ascii};
ghost use Rattle.text.specs.Text.{printed, lines_to};
ghost use Rattle.rendering.specs.Reports.{head_line, step_line, verdict_word, verdict_step, offer_line, step_line_at, offer_line_at};
ghost use Rattle.rendering.specs.Internal.{Printable};
ghost use Rattle.limits.specs.Limits.{offers_most, longest_report};

use arrayvec::ArrayString;
use limits::LONGEST_REPORT;
use runs::{FullRun, Record, Verdict};
use trial::{Labels, Shape};

pub(crate) type Page = ArrayString<LONGEST_REPORT>;

// figures of an offer, offers, k, e and M
pub(crate) fn head(page: &mut Page, shape: Shape, run: FullRun)
    requires room { array_string_len page.old + length (head_line shape run) ≤ longest_report }
    ensures { page.new.bytes ≡ page.old.bytes ++ head_line shape run }
{
    page.push_str("trial");
    text::push_field(page, trial::units(shape.design));
    text::push_field(page, shape.offers);
    text::push_field(page, shape.k);
    text::push_field(page, run.e);
    text::push_field(page, run.rows);
    page.push_str("\n");
}

// a step's number and critical value, the row that set it, and the offer that did
fn step(page: &mut Page, m: Record, code: usize, digits: usize)
    requires whole { T (fits binary64 m.critical) × T (in_signed binary64 63 m.critical) }
    requires room { array_string_len page.old + length (step_line m (printed digits code)) ≤ longest_report }
    ensures { page.new.bytes ≡ page.old.bytes ++ step_line m (printed digits code) }
{
    page.push_str("step");
    text::push_field(page, m.step);
    text::push_cents(page, m.critical);
    text::push_field(page, m.row);
    page.push_str(" ");
    text::push_code(page, code, digits);
    page.push_str("\n");
}

// the word for a verdict
fn word(v: Verdict) -> &'static str
    ensures { result.now ≡ ascii (verdict_word v) }
{
    match v {
        Verdict::Rejected(..) => "rejected",
        Verdict::Kept(_) => "kept",
        Verdict::Aside => "aside",
    }
}

// the step that rejected or the last step; 0 for an offer that is set aside
fn last_step(v: Verdict, last: usize) -> usize
    ensures { result ≡ verdict_step last v }
{
    match v {
        Verdict::Rejected(step, _) => step,
        Verdict::Kept(_) => last,
        Verdict::Aside => 0,
    }
}

// an offer: printed code, verdict, step, count
fn offer(page: &mut Page, code: usize, digits: usize, v: Verdict, last: usize, count: usize)
    requires room { array_string_len page.old + length (offer_line (printed digits code) v last count) ≤ longest_report }
    ensures { page.new.bytes ≡ page.old.bytes ++ offer_line (printed digits code) v last count }
{
    text::push_code(page, code, digits);
    page.push_str(" ");
    page.push_str(word(v));
    text::push_field(page, last_step(v, last));
    text::push_field(page, count);
    page.push_str("\n");
}

pub(crate) fn steps(page: &mut Page, labels: Labels, run: FullRun)
    requires printable { Printable offers_most run }
    requires room { array_string_len page.old + length (lines_to run.steps (step_line_at labels run)) ≤ longest_report }
    ensures { page.new.bytes ≡ page.old.bytes ++ lines_to run.steps (step_line_at labels run) }
{
    for m in &run.records[..run.steps] {
        let j = m.offer - 1;
        let (code, digits) = (labels.codes[j] as usize, labels.digits[j] as usize);
        step(page, *m, code, digits);
    }
}

pub(crate) fn offers(page: &mut Page, labels: Labels, n: usize, run: FullRun)
    requires few { n ≤ offers_most }
    requires room { array_string_len page.old + length (lines_to n (offer_line_at labels run)) ≤ longest_report }
    ensures { page.new.bytes ≡ page.old.bytes ++ lines_to n (offer_line_at labels run) }
{
    // by place: codes, digits, verdicts and counts stand in arrays of their own, which theorems name
    for i in 0..n {
        let (code, digits) = (labels.codes[i] as usize, labels.digits[i] as usize);
        offer(
            page,
            code,
            digits,
            run.verdicts[i],
            run.steps,
            run.counts[i],
        );
    }
}
