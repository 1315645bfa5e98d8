// The file of an accepted trial, word by word into a lent buffer.
ghost use Rattle.std.specs.Prelude.{◌≡◌, ℕ, ◌+◌, ◌*◌, ◌<◌, ◌≤◌, length, get_or, pos, nat_abs};
ghost use Rattle.std.proofs.lemmas.List.Edits.{sets};
ghost use Rattle.limits.specs.Limits.{offers_most, figures_most, longest_file, digits_most, difference_most};
ghost use Rattle.refusals.specs.Buffers.{written};
ghost use Rattle.trial.specs.Record.{ArrayLengths};
ghost use Rattle.trial.specs.Refusals.{nth, trial_refusal};
ghost use Rattle.words.specs.Words.{word_bytes, bytes_of};
ghost use Rattle.layouts.specs.Layouts.{layout_of};
ghost use Rattle.trialwriter.specs.Writings.{offer_words, figure_words, file_of, file_length};

use super::word;
use layouts::Layout;
use trial::Trial;

fn put_word(out: &mut [u8], i: usize, w: u32)
    requires { (i < 65536) × (4 * i + 4 ≤ length out.old) }
    ensures { out.new ≡ sets out.old (4 * i) (word_bytes w) }
{
    out[4 * i..4 * i + 4].copy_from_slice(&w.to_le_bytes());
}

// the words of n offers, from the place `at` on
fn write_offers(codes: &[u32], digits: &[u8], n: usize, at: usize, out: &mut [u8])
    requires { (n ≤ offers_most) × (n ≤ length codes.now) × (n ≤ length digits.now) × (at ≤ longest_file) × (4 * (at + n) ≤ length out.old) × ((i : ℕ) → i < n → (get_or codes.now i 0 < 16777216) × (get_or digits.now i 0 ≤ digits_most)) }
    ensures { out.new ≡ sets out.old (4 * at) (bytes_of (offer_words (nth codes.now 0) (nth digits.now 0) n)) }
{
    for i in 0..n {
        put_word(out, at + i, word::offer_word(codes[i], digits[i]));
    }
}

// the words of n figures, from the place `at` on; one function for both would take a closure whose contract says all that differs, no plainer
fn write_figures(figures: &[i32], n: usize, at: usize, out: &mut [u8])
    requires { (n ≤ figures_most) × (n ≤ length figures.now) × (at ≤ longest_file) × (4 * (at + n) ≤ length out.old) × ((i : ℕ) → i < n → nat_abs (get_or figures.now i (pos 0)) ≤ difference_most) }
    ensures { out.new ≡ sets out.old (4 * at) (bytes_of (figure_words (nth figures.now (pos 0)) n)) }
{
    for i in 0..n {
        put_word(out, at + i, word::difference_word(figures[i]));
    }
}

// the words of an accepted trial's file into the buffer's first places
pub(crate) fn write_words(t: Trial, l: Layout, out: &mut [u8])
    requires { (ArrayLengths t) × (trial_refusal t ≡ 0) × (l ≡ layout_of t.shape) × (file_length t ≤ length out.old) }
    ensures { out.new ≡ written (file_of t) out.old }
{
    let shape = t.shape;
    put_word(
        out,
        layouts::LEVEL_AT,
        word::level_word(t.level.a, t.level.b),
    );
    put_word(
        out,
        layouts::SHAPE_AT,
        word::shape_word(shape.k, shape.offers, shape.design),
    );
    write_offers(
        &t.labels.codes,
        &t.labels.digits,
        shape.offers,
        l.offers,
        out,
    );
    write_figures(&t.figures, l.end - l.figures, l.figures, out);
    put_word(out, l.end, word::end_word(l.end));
}
