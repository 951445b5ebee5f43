//! Laws over the definitions, each the contract of a function that does nothing.

ghost use Rattle.csn_compat.specs.Laws.{BlocksAreTaken};

/// A string that has a tree by the old description has one by the new one, where this takes its blocks.
pub fn blocks_are_taken()
    ensures { BlocksAreTaken }
{}
