/// How many bits a block is to have.
#[derive(Clone, Copy, Debug, PartialEq, Eq)]
pub enum Length {
    Exactly(u32),
    AtMost(u32),
}

impl Length {
    ghost use Rattle.std.specs.Prelude.{◌≡◌, ◌↔◌, IsTrue};
    ghost use Rattle.csn_sample.specs.Samples.{Fits, most_of};

    /// The most bits that it lets a block have.
    pub fn most(self) -> u32
        ensures { result ≡ most_of self }
    {
        match self {
            Length::Exactly(bits) | Length::AtMost(bits) => bits,
        }
    }

    /// Whether so many bits are as many as that.
    pub fn fits(self, bits: u32) -> bool
        ensures { IsTrue result ↔ Fits self bits }
    {
        match self {
            Length::Exactly(wanted) => bits == wanted,
            Length::AtMost(most) => bits <= most,
        }
    }
}

/// Which values the fields of a block get.
#[derive(Clone, Copy, Debug, PartialEq, Eq)]
pub enum Values {
    /// Each as likely as another.
    Uniform,
    /// The least and the greatest, more often than others.
    Edges,
}

/// What is asked of a block.
#[derive(Clone, Copy, Debug, PartialEq, Eq)]
pub struct Wish {
    pub length: Length,
    pub values: Values,
}
