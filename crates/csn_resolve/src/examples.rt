//! Worked examples of the definitions, each a clause of a function that does nothing.

ghost use Rattle.csn_resolve.specs.Examples.{FieldsAreResolved, RefusalsHaveAnOrder, AlternativesAreDropped};
ghost use Rattle.csn_resolve.specs.Examples.{CountsStandOnTheNearest, TailsAreRepetitions, LimitsAreExact};

/// What a few rules give, and why one of them is refused.
#[tactic(auto, using(crate::proofs::ExampleFacts::fields_are_resolved, crate::proofs::ExampleFacts::refusals_have_an_order, crate::proofs::ExampleFacts::alternatives_are_dropped, crate::proofs::ExampleFacts::counts_stand_on_the_nearest, crate::proofs::ExampleFacts::tails_are_repetitions))]
pub fn worked_examples()
    ensures description { FieldsAreResolved }
    ensures refusals { RefusalsHaveAnOrder }
    ensures dropped { AlternativesAreDropped }
    ensures counted { CountsStandOnTheNearest }
    ensures tail { TailsAreRepetitions }
    ensures limits { LimitsAreExact }
{}
