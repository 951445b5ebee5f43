//! Worked examples of the definition, each a clause of a function that does nothing.

ghost use Rattle.csn_compat.specs.Examples.{LaterMessageTakesMessage, CountsGoByPairs};

/// Which of a few descriptions take which.
pub fn worked_examples()
    ensures message { LaterMessageTakesMessage }
    ensures counted { CountsGoByPairs }
{}
