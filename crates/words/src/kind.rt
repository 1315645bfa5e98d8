// The kinds of words, each with its number.
ghost use Rattle.std.specs.Prelude.{◌≡◌, ◌*◌, eqb};
ghost use Rattle.words.specs.Words.{kind_of, code};

/// What kind of word stands at a place.
#[derive(Clone, Copy, Debug, PartialEq, Eq)]
pub enum Kind {
    /// 1: the level.
    Level,
    /// 2: the shape of a trial of pairs.
    Pairs,
    /// 3: an offer.
    Offer,
    /// 4: a difference, or a shop's figure.
    Figure,
    /// 5: the shape of a trial of shops without partners.
    Shops,
    /// 15: the end.
    End,
}

impl From<Kind> for u32 {
    ghost from_gives = { λ kind n. n ≡ code kind };

    fn from(kind: Kind) -> u32 {
        match kind {
            Kind::Level => 1,
            Kind::Pairs => 2,
            Kind::Offer => 3,
            Kind::Figure => 4,
            Kind::Shops => 5,
            Kind::End => 15,
        }
    }
}

impl Kind {
    /// Whether a word is of this kind.
    pub fn is(self, w: u32) -> bool
        ensures { result ≡ eqb (kind_of w) (code self) }
    {
        super::kind_of(w) == u32::from(self)
    }

    /// The word of this kind whose values are all 0.
    pub fn head(self) -> u32
        ensures { result ≡ code self * 268435456 }
    {
        u32::from(self) * super::BIT_28
    }
}
