ghost use Rattle.std.specs.Prelude.{◌≡◌};
ghost use Rattle.csn_resolve.specs.Why.{number_of};

/// Why rules are refused. Depths and numbers of nodes are those of the walk, which goes through both
/// sides of `=` and through the alternatives that are dropped.
#[derive(Clone, Copy, Debug, PartialEq, Eq, Hash)]
pub enum Why {
    /// No rule has the name, and it is not built in.
    Undefined,
    /// A rule has the name of an earlier rule or one that is built in.
    DefinedTwice,
    /// A name stands in what its own rule says, and not at the end of a rule in tail form.
    Recursive,
    /// No labelled item that is seen has the label.
    ValUnknown,
    /// The labelled item is not a field of constant width, of 1 to 16 bits.
    ValWidth,
    /// A constant exponent or a multiplier is 0.
    ZeroCount,
    /// A constant exponent is more than 65,536, a multiplier more than 255, or a summand more than
    /// 65,535.
    CountTooLarge,
    /// Neither side of `&` is a number of bits or octets.
    IntersectionForm,
    /// A sender could take a branch behind `!`.
    ErrorBranchForm,
    /// A part with an exponent, a component of a truncation or the asked rule is empty of strings.
    NoString,
    /// More than 16,384 nodes.
    TooManyNodes,
    /// More than 64 nodes, names and braces inside one another.
    TooDeep,
    /// A field that some count stands on has 64 such fields before it.
    TooManyVals,
}

impl Why {
    /// The number by which a program tells the refusal, from 1 to 13.
    pub fn number(&self) -> u8
        ensures { result ≡ number_of self.now }
    {
        match self {
            Why::Undefined => 1,
            Why::DefinedTwice => 2,
            Why::Recursive => 3,
            Why::ValUnknown => 4,
            Why::ValWidth => 5,
            Why::ZeroCount => 6,
            Why::CountTooLarge => 7,
            Why::IntersectionForm => 8,
            Why::ErrorBranchForm => 9,
            Why::NoString => 10,
            Why::TooManyNodes => 11,
            Why::TooDeep => 12,
            Why::TooManyVals => 13,
        }
    }
}
