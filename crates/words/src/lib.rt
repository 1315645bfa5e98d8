// A word of a trial file: out of bytes, and what it holds. The definitions are in specs/, their laws in proofs/.
#![tactic(auto)]

mod kind; // the kinds of words

ghost use Rattle.std.specs.Prelude.{◌≡◌, ◌+◌, ◌*◌, ◌≤◌, length};
ghost use Rattle.words.specs.Words.{words_of, word, kind_of, level_in, no_shape, shape_in, spare_of, digits_of, code_of, difference_of, count_of};

pub use kind::Kind;
use trial::{Design, Level, Shape};

// Where fields begin: at bit 8, 14, 16, 24 and 28. The kind stands from bit 28 on, the values below it.
pub const BIT_8: u32 = 1 << 8;

pub const BIT_14: u32 = 1 << 14;

pub const BIT_16: u32 = 1 << 16;

pub const BIT_24: u32 = 1 << 24;

pub const BIT_28: u32 = 1 << 28;

// The values of a field of 4 bits.
const FOUR_BITS: u32 = 1 << 4;

// the word at place i of a file that has it
pub fn word_here(file: &[u8], i: usize) -> u32
    requires { 4 * i + 4 ≤ length file.now }
    ensures { result ≡ word (words_of file.now) i }
{
    let bytes = &file[4 * i..4 * i + 4];
    u32::from_le_bytes([bytes[0], bytes[1], bytes[2], bytes[3]])
}

// the word at place i, and 0 where it is missing
pub fn word_at(file: &[u8], i: usize) -> u32
    ensures { result ≡ word (words_of file.now) i }
{
    if file.len() / 4 <= i {
        0
    } else {
        word_here(file, i)
    }
}

// bits 31-28
pub fn kind_of(w: u32) -> u32
    ensures { result ≡ kind_of w }
{
    w / BIT_28
}

// level: bits 27-14 and 13-0 (`as` here and below: usize has no From<u32>, and a field of 4 bits is cut to a u8)
pub fn level_of(w: u32) -> Level
    ensures { result ≡ level_in w }
{
    Level {
        a: (w / BIT_14 % BIT_14) as usize,
        b: (w % BIT_14) as usize,
    }
}

// neither a shape of pairs nor one of shops
#[tactic(auto, unfolding(crate::specs::Words::no_shape))]
pub fn no_shape(w: u32) -> bool
    ensures { result ≡ no_shape w }
{
    !Kind::Pairs.is(w) && !Kind::Shops.is(w)
}

// shape: of shops bits 27-24, 23-16, 15-8 and 7-0, of pairs bits 23-16, 15-8 and 7-0
#[tactic(auto, unfolding(crate::specs::Words::shape_in))]
pub fn shape_of(w: u32) -> Shape
    ensures { result ≡ shape_in w }
{
    if Kind::Shops.is(w) {
        return Shape {
            k: (w / BIT_24 % FOUR_BITS) as usize,
            offers: (w / BIT_16 % BIT_8) as usize,
            design: Design::Unpaired((w / BIT_8 % BIT_8) as usize, (w % BIT_8) as usize),
        };
    }
    Shape {
        k: (w / BIT_16 % BIT_8) as usize,
        offers: (w / BIT_8 % BIT_8) as usize,
        design: Design::Paired((w % BIT_8) as usize),
    }
}

// shape: bits 27-24, where they have to be 0
#[tactic(auto, unfolding(crate::specs::Words::spare_of))]
pub fn spare_of(w: u32) -> u32
    ensures { result ≡ spare_of w }
{
    if Kind::Shops.is(w) {
        0
    } else {
        w / BIT_24 % FOUR_BITS
    }
}

// offer: bits 27-24
pub fn digits_of(w: u32) -> u8
    ensures { result ≡ digits_of w }
{
    (w / BIT_24 % FOUR_BITS) as u8
}

// offer: bits 23-0
pub fn code_of(w: u32) -> u32
    ensures { result ≡ code_of w }
{
    w % BIT_24
}

// end: bits 27-0
pub fn count_of(w: u32) -> usize
    ensures { result ≡ count_of w }
{
    (w % BIT_28) as usize
}

// bits 27-0 of a difference word, two's complement
pub fn difference_of(w: u32) -> i32
    ensures { result ≡ difference_of w }
{
    let v = w % BIT_28;
    if v < BIT_28 / 2 {
        v as i32
    } else {
        v as i32 - BIT_28 as i32
    }
}
