//! Laws over the definitions, each the contract of a function that does nothing.

ghost use Rattle.csn_replay.specs.Laws.{HeadsTellCaptures};

/// The head of a line tells whether the line is a capture, and of which entry.
pub fn heads_tell_captures()
    ensures { HeadsTellCaptures }
{}
