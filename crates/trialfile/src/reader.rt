// The trial that an accepted file holds, read off by position.
ghost use Rattle.std.specs.Prelude.{◌≡◌, ◌+◌, ◌*◌, ◌≤◌, length, pos};
ghost use Rattle.limits.specs.Limits.{offers_most, figures_most, longest_file};
ghost use Rattle.order.specs.Lists.{tabulate, padded};
ghost use Rattle.words.specs.Words.{words_of};
ghost use Rattle.trialfile.specs.Files.{code_in, digits_in, figure_in, trial_of, file_refusal};

use layouts::Layout;
use limits::{FIGURES_MOST, OFFERS_MOST};
use trial::{Labels, Trial};

// the labels of n offers (not one function with `read_figures`: two arrays from a word against one, so a closure would hold the whole body)
pub(crate) fn read_labels(file: &[u8], l: Layout, n: usize) -> Labels
    requires { (n ≤ offers_most) × (l.offers ≤ longest_file) }
    ensures { (result.codes ≡ padded offers_most 0 (tabulate n (code_in (words_of file.now) l))) × (result.digits ≡ padded offers_most 0 (tabulate n (digits_in (words_of file.now) l))) }
{
    let mut codes = [0u32; OFFERS_MOST];
    let mut digits = [0u8; OFFERS_MOST];
    for i in 0..n {
        let w = words::word_at(file, l.offers + i * layouts::WORDS_PER_OFFER);
        codes[i] = words::code_of(w);
        digits[i] = words::digits_of(w);
    }
    Labels { codes, digits }
}

// n figures of a file that has their words
fn read_figures(file: &[u8], l: Layout, n: usize) -> [i32; FIGURES_MOST]
    requires { (n ≤ figures_most) × (l.figures ≤ longest_file) × (4 * (l.figures + n) ≤ length file.now) }
    ensures { result ≡ padded figures_most (pos 0) (tabulate n (figure_in (words_of file.now) l)) }
{
    let mut figures = [0i32; FIGURES_MOST];
    for i in 0..n {
        figures[i] = words::difference_of(words::word_here(file, l.figures + i));
    }
    figures
}

// the trial that an accepted file holds
pub(crate) fn read_trial(file: &[u8]) -> Trial
    requires { file_refusal file.now ≡ 0 }
    ensures { result ≡ trial_of (words_of file.now) }
{
    let level = words::level_of(words::word_at(file, layouts::LEVEL_AT));
    let shape = words::shape_of(words::word_at(file, layouts::SHAPE_AT));
    let l = layouts::of_shape(shape);
    let labels = read_labels(file, l, shape.offers);
    let figures = read_figures(file, l, l.end - l.figures);
    Trial {
        level,
        shape,
        labels,
        figures,
    }
}
