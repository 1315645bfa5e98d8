// A word of a trial file, made of the values of its kind.
ghost use Rattle.std.specs.Prelude.{◌≡◌, ◌<◌, ◌≤◌, nat_abs};
ghost use Rattle.limits.specs.Limits.{offers_most, units_most, tolerance_most, digits_most, difference_most, level_most, longest_file};
ghost use Rattle.refusals.specs.Answers.{first_refusal};
ghost use Rattle.trial.specs.Designs.{design_checks};
ghost use Rattle.words.specs.Words.{level_word, paired_word, unpaired_word, shape_word_of, offer_word, bits_of, difference_word, end_word};

use trial::Design;
use words::{BIT_8, BIT_14, BIT_16, BIT_24, Kind};

// How many values bits 27-0 have.
const FIELD: i32 = 1 << 28;

pub(crate) fn level_word(a: usize, b: usize) -> u32
    requires { (a ≤ level_most) × (b ≤ level_most) }
    ensures { result ≡ level_word a b }
{
    Kind::Level.head() + (a as u32) * BIT_14 + b as u32
}

fn paired_word(k: usize, offers: usize, pairs: usize) -> u32
    requires { (k ≤ tolerance_most) × (offers ≤ offers_most) × (pairs ≤ units_most) }
    ensures { result ≡ paired_word k offers pairs }
{
    Kind::Pairs.head() + (k as u32) * BIT_16 + (offers as u32) * BIT_8 + pairs as u32
}

fn unpaired_word(k: usize, offers: usize, shops: usize, treated: usize) -> u32
    requires { (k ≤ tolerance_most) × (offers ≤ offers_most) × (shops ≤ units_most) × (treated ≤ units_most) }
    ensures { result ≡ unpaired_word k offers shops treated }
{
    Kind::Shops.head()
        + (k as u32) * BIT_24
        + (offers as u32) * BIT_16
        + (shops as u32) * BIT_8
        + treated as u32
}

// the shape, by how the trial was laid out
pub(crate) fn shape_word(k: usize, offers: usize, d: Design) -> u32
    requires { (k ≤ tolerance_most) × (offers ≤ offers_most) × (first_refusal (design_checks d) ≡ 0) }
    ensures { result ≡ shape_word_of k offers d }
{
    match d {
        Design::Paired(pairs) => paired_word(k, offers, pairs),
        Design::Unpaired(shops, treated) => unpaired_word(k, offers, shops, treated),
    }
}

pub(crate) fn offer_word(code: u32, digits: u8) -> u32
    requires { (code < 16777216) × (digits ≤ digits_most) }
    ensures { result ≡ offer_word code digits }
{
    Kind::Offer.head() + u32::from(digits) * BIT_24 + code
}

// bits 27-0 of a difference, two's complement
fn bits_of(d: i32) -> u32
    requires { nat_abs d ≤ difference_most }
    ensures { (result ≡ bits_of d) × (result < 268435456) }
{
    if d < 0 {
        return (d + FIELD) as u32;
    }
    d as u32
}

pub(crate) fn difference_word(d: i32) -> u32
    requires { nat_abs d ≤ difference_most }
    ensures { result ≡ difference_word d }
{
    Kind::Figure.head() + bits_of(d)
}

pub(crate) fn end_word(n: usize) -> u32
    requires { n ≤ longest_file }
    ensures { result ≡ end_word n }
{
    Kind::End.head() + n as u32
}
