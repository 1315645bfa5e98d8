// Why a call is turned away: an enum, its number, and a condition that refuses.
ghost use Rattle.std.specs.Prelude.{◌≡◌, false, OnOk};
ghost use Rattle.refusals.specs.Answers.{number, refused_where};

use std::error::Error;
use std::fmt;

/// Why a call is turned away. Each has a number, `u32::from`, which reports and C calls tell.
#[derive(Clone, Copy, Debug, PartialEq, Eq)]
pub enum Refusal {
    /// 1: a file that is empty, too long, or no whole number of words.
    FileLength,
    /// 2: a word of a file is missing or of another kind.
    WordKind,
    /// 3: a level that is no fraction between 0 and 1, or whose denominator is too large.
    Level,
    /// 4: rows, columns (offers), pairs or k outside their range, or k above the columns.
    Sizes,
    /// 5: the printed digits of an offer are out of range, or too few for its number.
    Digits,
    /// 6: an offer's number is that of an earlier offer.
    Repeated,
    /// 7: a difference or a shop's figure is out of range.
    Figure,
    /// 8: the end of a file does not tell its length, or something follows it.
    End,
    /// 9: a table has not as many values as rows times columns.
    Length,
    /// 10: the observed row is not one of the rows.
    Observed,
    /// 11: a value is infinite or no number.
    Value,
    /// 12: a lent buffer is too short.
    Buffer,
    /// 13: the run has ended.
    Ended,
    /// 14: the run is spoiled: no run that was begun and stepped looks like it.
    Spoiled,
    /// 15: the shops without partners, or the treated ones among them, are out of range.
    Shops,
}

impl From<Refusal> for u32 {
    ghost from_gives = { λ r n. n ≡ number r };

    fn from(refusal: Refusal) -> u32 {
        match refusal {
            Refusal::FileLength => 1,
            Refusal::WordKind => 2,
            Refusal::Level => 3,
            Refusal::Sizes => 4,
            Refusal::Digits => 5,
            Refusal::Repeated => 6,
            Refusal::Figure => 7,
            Refusal::End => 8,
            Refusal::Length => 9,
            Refusal::Observed => 10,
            Refusal::Value => 11,
            Refusal::Buffer => 12,
            Refusal::Ended => 13,
            Refusal::Spoiled => 14,
            Refusal::Shops => 15,
        }
    }
}

impl fmt::Display for Refusal {
    fn fmt<W: fmt::Write>(&self, f: &mut fmt::Formatter<W>) -> fmt::Result {
        write!(f, "refused {}", u32::from(*self))
    }
}

impl Error for Refusal {}

impl Refusal {
    /// This refusal where the condition holds.
    pub fn if_true(self, condition: bool) -> Result<(), Refusal>
        ensures value { result ≡ refused_where condition self }
        ensures passed { OnOk result (condition ≡ false) }
    {
        if condition { Err(self) } else { Ok(()) }
    }
}
