//! Laws over the definitions, each the contract of a function that does nothing.

ghost use Rattle.csn_good.specs.Laws.{GoodClaimsHold, GoodLeavesOneTree, FirstFaultIsOne, GoodHasNoFault};

/// What a good certificate claims contains what the equations make of it, and leaves no conflict.
pub fn good_claims_hold()
    ensures { GoodClaimsHold }
{}

/// Any bits, of any length, have at most one tree where there is a good certificate.
pub fn good_leaves_one_tree()
    ensures { GoodLeavesOneTree }
{
    good_claims_hold();
    csn_claims::laws::held_claims_leave_one_tree();
}

/// A certificate has at most one first fault, and a good one has none.
pub fn first_fault_is_one()
    ensures one { FirstFaultIsOne }
    ensures none { GoodHasNoFault }
{}
