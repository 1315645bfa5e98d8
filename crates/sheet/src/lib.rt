// The buyers' sheet of a trial file, as text: a line for each offer with its figure, then the number of rows.
// The definitions are in specs/, their laws in proofs/.
#![tactic(auto)]

ghost use Rattle.std.specs.Prelude.{◌≡◌, ◌++◌, ◌+◌, ◌≤◌, length, IfOk};
ghost use Rattle.arrayvec.specs.ArrayString.{array_string_len};
ghost use Rattle.limits.specs.Limits.{offers_most, longest_sheet};
ghost use Rattle.text.specs.Text.{lines_to};
ghost use Rattle.text.specs.Renderings.{text_answer, after_text};
ghost use Rattle.sheet.specs.Sheets.{sheet_line, sheet_line_at, sheet_text, sheet_of};
ghost use Rattle.sheet.specs.Internal.{text_of};

use adjustment::Adjusted;
use arrayvec::ArrayString;
use limits::LONGEST_SHEET;
use refusals::Refusal;
use trial::{Labels, Trial};
use trialadjustment::FileFigures;

type Page = ArrayString<LONGEST_SHEET>;

// an offer: printed code and figure
fn offer(page: &mut Page, code: usize, digits: usize, figure: usize)
    requires room { array_string_len page.old + length (sheet_line code digits figure) ≤ longest_sheet }
    ensures { page.new.bytes ≡ page.old.bytes ++ sheet_line code digits figure }
{
    text::push_code(page, code, digits);
    text::push_field(page, figure);
    page.push_str("\n");
}

fn offers(page: &mut Page, labels: Labels, n: usize, a: Adjusted)
    requires few { n ≤ offers_most }
    requires room { array_string_len page.old + length (lines_to n (sheet_line_at labels a)) ≤ longest_sheet }
    ensures { page.new.bytes ≡ page.old.bytes ++ lines_to n (sheet_line_at labels a) }
{
    // by place: codes, digits and figures stand in arrays of their own, which theorems name
    for i in 0..n {
        let (code, digits) = (labels.codes[i] as usize, labels.digits[i] as usize);
        offer(page, code, digits, a.figures[i]);
    }
}

// the sheet of a trial with these figures
#[tactic(auto, unfolding(crate::specs::Sheets::sheet_text))]
fn trial_sheet(t: Trial, a: Adjusted) -> Page
    requires few { t.shape.offers ≤ offers_most }
    requires room { length (sheet_text t a) ≤ longest_sheet }
    ensures { result.bytes ≡ sheet_text t a }
{
    let shape = t.shape;
    let mut page = Page::new();
    offers(&mut page, t.labels, shape.offers, a);
    text::push_numbered(&mut page, "end", a.rows);
    page
}

// the text for what a file's figures answer
fn compose(answer: Result<FileFigures, Refusal>) -> Page
    requires few { IfOk answer (λ f. f.trial.shape.offers ≤ offers_most) }
    requires room { length (text_of answer) ≤ longest_sheet }
    ensures { result.bytes ≡ text_of answer }
{
    match answer {
        Ok(f) => trial_sheet(f.trial, f.adjusted),
        Err(refusal) => {
            let mut page = Page::new();
            text::push_numbered(&mut page, "refused", u32::from(refusal) as usize);
            page
        }
    }
}

// The sheet of a file, or its refusal, as text into the buffer's first places: its length. Where the buffer is too short it is unchanged.
pub fn sheet(file: &[u8], out: &mut [u8]) -> Result<usize, Refusal>
    ensures value { result ≡ text_answer (sheet_of file.now) (length out.old) }
    ensures out_after { out.new ≡ after_text (sheet_of file.now) out.old }
{
    text::give(compose(trialadjustment::file_figures(file)).as_bytes(), out)
}
