//! Worked examples of the definitions, each a clause of a function that does nothing.

ghost use Rattle.csn_certify.specs.Examples.{IsCertified, PicksTheSecond, NeedsABit};

/// A description that is certified, and what look-ahead answers there.
pub fn worked_examples()
    ensures certified { IsCertified }
    ensures taken { PicksTheSecond }
    ensures needed { NeedsABit }
{}
