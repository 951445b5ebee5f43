//! Laws over the definitions, each the contract of a function that does nothing.

ghost use Rattle.csn_places.specs.Places.{OriginsArePlaces};

/// The origins of a description that a named rule gives are where its nodes stand.
pub fn origins_are_places()
    ensures { OriginsArePlaces }
{}
