// What a file is turned away for: at each place, the first condition that holds.
ghost use Rattle.std.specs.Prelude.{◌≡◌, ◌||◌, not, eqb, ltb, ◌<◌, ◌≤◌, ◌+◌, ◌∷◌, length};
ghost use Rattle.limits.specs.Limits.{offers_most, units_most, figures_most, longest_file};
ghost use Rattle.refusals.specs.Answers.{r2, places_from, outcome};
ghost use Rattle.refusals.specs.Limits.{bad_columns};
ghost use Rattle.trial.specs.Designs.{units_of};
ghost use Rattle.trial.specs.Refusals.{offer_checks, nth};
ghost use Rattle.words.specs.Words.{words_of, offer_kind, shape_in, spare_of, count_of};
ghost use Rattle.trialfile.specs.Files.{other_kind, bad_length, level_place, shape_place, offer_place, figure_place, end_place, body_places, file_checks};

use super::reader;
use layouts::Layout;
use limits::{LONGEST_FILE, OFFERS_MOST};
use refusals::Refusal;
use trial::{Labels, Shape};
use words::Kind;

// the condition of 1
#[tactic(auto, unfolding(crate::specs::Files::bad_length))]
fn bad_length(file: &[u8]) -> bool
    ensures { result ≡ bad_length file.now }
{
    file.len() == 0 || file.len() % 4 != 0 || LONGEST_FILE < file.len()
}

// of the level: the kind before the value
fn judge_level(w: u32) -> Result<(), Refusal>
    ensures { result ≡ outcome (level_place w) tt }
{
    Refusal::WordKind.if_true(!Kind::Level.is(w))?;
    let level = words::level_of(w);
    Refusal::Level.if_true(refusals::bad_level(level.a, level.b))
}

// the condition of 4 in a shape's word: its counts, or bits that have to be 0
fn bad_counts(w: u32) -> bool
    ensures { result ≡ bad_columns offers_most (shape_in w).offers (shape_in w).k || not (eqb (spare_of w) 0) }
{
    let shape = words::shape_of(w);
    refusals::bad_columns(OFFERS_MOST, shape.offers, shape.k) || words::spare_of(w) != 0
}

// of the shape: the kind before the value, and what its layout adds
fn judge_shape(w: u32) -> Result<(), Refusal>
    ensures { result ≡ outcome (shape_place w) tt }
{
    Refusal::WordKind.if_true(words::no_shape(w))?;
    Refusal::Sizes.if_true(bad_counts(w))?;
    trial::check_design(words::shape_of(w).design)
}

// of offer i, whose word is w: the kind before the value
fn judge_offer(w: u32, labels: Labels, i: usize) -> Result<(), Refusal>
    ensures { result ≡ outcome ((other_kind offer_kind w, r2) ∷ offer_checks (nth labels.codes 0) (nth labels.digits 0) i) tt }
{
    Refusal::WordKind.if_true(!Kind::Offer.is(w))?;
    trial::check_offer(labels, i)
}

// of n offers: their labels are read first, so that numbers are compared in an array
fn judge_offers(file: &[u8], l: Layout, n: usize) -> Result<(), Refusal>
    requires { (n ≤ offers_most) × (l.offers ≤ longest_file) }
    ensures { result ≡ outcome (places_from (offer_place (words_of file.now) l) 0 n) tt }
{
    let labels = reader::read_labels(file, l, n);
    for i in 0..n {
        let w = words::word_at(file, l.offers + i * layouts::WORDS_PER_OFFER);
        judge_offer(w, labels, i)?;
    }
    Ok(())
}

// of figure i: the kind before the value
fn judge_figure(file: &[u8], l: Layout, i: usize) -> Result<(), Refusal>
    requires { (i < figures_most) × (l.figures ≤ longest_file) }
    ensures { result ≡ outcome (figure_place (words_of file.now) l i) tt }
{
    let w = words::word_at(file, l.figures + i);
    Refusal::WordKind.if_true(!Kind::Figure.is(w))?;
    Refusal::Figure.if_true(trial::bad_difference(words::difference_of(w)))
}

// of n figures
fn judge_figures(file: &[u8], l: Layout, n: usize) -> Result<(), Refusal>
    requires { (n ≤ figures_most) × (l.figures ≤ longest_file) }
    ensures { result ≡ outcome (places_from (figure_place (words_of file.now) l) 0 n) tt }
{
    for i in 0..n {
        judge_figure(file, l, i)?;
    }
    Ok(())
}

// the condition of 8: the end, whose word is w, does not tell n words, or something follows it
#[tactic(auto, using(crate::proofs::Judged::word_count))]
fn bad_end(file: &[u8], w: u32, n: usize) -> bool
    requires { n ≤ longest_file }
    ensures { result ≡ not (eqb (count_of w) n) || ltb (n + 1) (length (words_of file.now)) }
{
    words::count_of(w) != n || n + 1 < file.len() / 4
}

// of the end after n words
fn judge_end(file: &[u8], n: usize) -> Result<(), Refusal>
    requires { n ≤ longest_file }
    ensures { result ≡ outcome (end_place (words_of file.now) n) tt }
{
    let w = words::word_at(file, n);
    Refusal::WordKind.if_true(!Kind::End.is(w))?;
    Refusal::End.if_true(bad_end(file, w, n))
}

// of the words after the shape
fn judge_body(file: &[u8], shape: Shape) -> Result<(), Refusal>
    requires { (shape.offers ≤ offers_most) × (units_of shape.design ≤ units_most) }
    ensures { result ≡ outcome (body_places (words_of file.now) shape) tt }
{
    let l = layouts::of_shape(shape);
    judge_offers(file, l, shape.offers)?;
    judge_figures(file, l, l.end - l.figures)?;
    judge_end(file, l.end)
}

// of a whole file: 1 first, then the words from the start
pub(crate) fn judge(file: &[u8]) -> Result<(), Refusal>
    ensures { result ≡ outcome (file_checks file.now) tt }
{
    Refusal::FileLength.if_true(bad_length(file))?;
    judge_level(words::word_at(file, layouts::LEVEL_AT))?;
    let w = words::word_at(file, layouts::SHAPE_AT);
    judge_shape(w)?;
    judge_body(file, words::shape_of(w))
}
