//! Laws over the definitions, each the contract of a function that does nothing.

ghost use Rattle.csn_claims.specs.Laws.{HeldClaimsLeaveOneTree};

/// Any bits, of any length, have at most one tree where some claims hold.
pub fn held_claims_leave_one_tree()
    ensures { HeldClaimsLeaveOneTree }
{
    csn_desc::laws::nodes_are_well_formed();
    csn_desc::laws::values_are_kept();
}
