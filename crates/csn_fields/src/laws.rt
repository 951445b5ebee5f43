//! Laws over the definitions, each the contract of a function that does nothing.

ghost use Rattle.csn_fields.specs.Laws.{LeavesLieAlong, BlocksAreTiled, FrontsLieAlong, TreesHaveOneListOfEvents};

/// The leaves of the bits that a tree has, and so those of a block, lie one behind another, have the bits at their places,
/// and are all of them.
pub fn leaves_lie_along()
    ensures node { LeavesLieAlong }
    ensures block { BlocksAreTiled }
    ensures front { FrontsLieAlong }
{}

/// A tree at a node has no two lists of events.
pub fn trees_have_one_list_of_events()
    ensures { TreesHaveOneListOfEvents }
{}
