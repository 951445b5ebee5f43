use crate::verdict::Verdict;

/// What is known of a block that goes on, where memory is taken along its moves.
#[derive(Clone, Copy, Debug, PartialEq, Eq, Hash)]
pub enum Fed {
    /// The bits so far can be followed.
    Going,
    /// They cannot: only the first `place` of them.
    Refused { place: u32 },
    /// What is made of the moves needs more memory than there is.
    NoMemory,
}

impl Fed {
    ghost use Rattle.std.specs.Prelude.{◌≡◌};
    ghost use Rattle.csn_judge.specs.Following.{answer_of, is_going};

    /// Whether neither the bits were refused nor memory was wanting.
    pub fn is_going(self) -> bool
        ensures { result ≡ is_going self }
    {
        matches!(self, Fed::Going)
    }

    /// What is answered by what the judge says, where memory was wanting or not.
    pub fn of(verdict: Verdict, short: bool) -> Fed
        ensures { result ≡ answer_of verdict short }
    {
        match verdict {
            Verdict::Refused { place } => Fed::Refused { place },
            Verdict::Going if short => Fed::NoMemory,
            Verdict::Going => Fed::Going,
        }
    }
}
