//! Worked examples of the definitions, each a clause of a function that does nothing.

ghost use Rattle.csn_grammar.specs.Examples.{A5HasItsTree, B5IsRefusedAtThree, LettersGoByPlace};
ghost use Rattle.csn_grammar.specs.Examples.{PaddingGoesByReading, CountsGoByValue, NearestLabelCounts};
ghost use Rattle.csn_grammar.specs.Examples.{PlacesGoOnInWindows, TruncationsTakeFirstParts, RepetitionsHaveARow};
ghost use Rattle.csn_grammar.specs.Examples.{ErrorBranchesAreDropped, TailFormsHaveARow};

/// What a few rules mean, and where one of them refuses a block.
#[tactic(auto, using(crate::proofs::RefusedExamples::b5_is_refused_at_three, crate::proofs::RefusedExamples::padding_goes_by_reading, crate::proofs::ExampleFacts::a5_has_its_tree, crate::proofs::ExampleFacts::letters_go_by_place, crate::proofs::ExampleFacts::counts_go_by_value, crate::proofs::ExampleFacts::nearest_label_counts, crate::proofs::ExampleFacts::places_go_on_in_windows, crate::proofs::ExampleFacts::truncations_take_first_parts, crate::proofs::ExampleFacts::repetitions_have_a_row, crate::proofs::ExampleFacts::error_branches_are_dropped, crate::proofs::ExampleFacts::tail_forms_have_a_row))]
pub fn worked_examples()
    ensures tree { A5HasItsTree }
    ensures place { B5IsRefusedAtThree }
    ensures letters { LettersGoByPlace }
    ensures padding { PaddingGoesByReading }
    ensures counted { CountsGoByValue }
    ensures label { NearestLabelCounts }
    ensures window { PlacesGoOnInWindows }
    ensures truncation { TruncationsTakeFirstParts }
    ensures repetition { RepetitionsHaveARow }
    ensures error_branch { ErrorBranchesAreDropped }
    ensures tail_form { TailFormsHaveARow }
{}
