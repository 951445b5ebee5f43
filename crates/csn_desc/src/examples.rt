//! Worked examples of the definitions, each a clause of a function that does nothing.

ghost use Rattle.csn_desc.specs.Examples.{A5HasItsTree, B5IsRefusedAtThree, TreeOfA5HasItsMoves};
ghost use Rattle.csn_desc.specs.Examples.{FieldsAreADescription, LettersGoByPlace, PaddingGoesByReading};
ghost use Rattle.csn_desc.specs.Examples.{CountsGoByValue, PlacesGoOnInWindows, TruncationsTakeFirstParts};
ghost use Rattle.csn_desc.specs.Examples.{RepetitionsHaveARow};

/// What a few descriptions mean, and where one of them refuses a block.
#[tactic(auto, using(crate::proofs::ExampleFacts::fields_are_a_description, crate::proofs::ExampleFacts::a5_has_its_tree, crate::proofs::ExampleFacts::tree_of_a5_has_its_moves, crate::proofs::ExampleFacts::padding_goes_by_reading, crate::proofs::ExampleFacts::counts_go_by_value, crate::proofs::ExampleFacts::places_go_on_in_windows, crate::proofs::ExampleFacts::truncations_take_first_parts, crate::proofs::ExampleFacts::repetitions_have_a_row, crate::proofs::RefusedExample::b5_is_refused_at_three))]
pub fn worked_examples()
    ensures description { FieldsAreADescription }
    ensures tree { A5HasItsTree }
    ensures place { B5IsRefusedAtThree }
    ensures moves { TreeOfA5HasItsMoves }
    ensures letters { LettersGoByPlace }
    ensures padding { PaddingGoesByReading }
    ensures counted { CountsGoByValue }
    ensures window { PlacesGoOnInWindows }
    ensures truncation { TruncationsTakeFirstParts }
    ensures repetition { RepetitionsHaveARow }
{}
