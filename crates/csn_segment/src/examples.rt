//! Worked examples of the definitions, each a clause of a function that does nothing.
ghost use Rattle.csn_segment.specs.Examples.{HeadersAreRead, AddressesAreLeftOut, FirstThenSecond, SecondThenFirst};
ghost use Rattle.csn_segment.specs.Examples.{SecondTwice, FirstReplaced, TransactionsBetween, PutAside};
ghost use Rattle.csn_segment.specs.Examples.{OneBlockBetween};

/// What a few blocks give behind others.
pub fn worked_examples()
    ensures headers { HeadersAreRead }
    ensures addresses { AddressesAreLeftOut }
    ensures in_order { FirstThenSecond }
    ensures too_early { SecondThenFirst }
    ensures twice { SecondTwice }
    ensures replaced { FirstReplaced }
    ensures between { TransactionsBetween }
    ensures put_aside { PutAside }
    ensures one_block { OneBlockBetween }
{}
