//! Worked examples of trees as JSON, each a clause of a function that does nothing.

ghost use Rattle.csn_json.specs.Examples.{LabelsStandBesideTrees, OrderDoesNotMatter, LastOfEqualKeysCounts, LowerCaseIsNoBlockLine, BraceIsNoJson};

/// Texts that show a tree.
pub fn worked_examples()
    ensures label { LabelsStandBesideTrees }
    ensures order { OrderDoesNotMatter }
    ensures last { LastOfEqualKeysCounts }
{}

/// Texts that show none.
pub fn worked_refusals()
    ensures lower_case { LowerCaseIsNoBlockLine }
    ensures no_json { BraceIsNoJson }
{
    csn_bits::laws::written_is_read();
}
