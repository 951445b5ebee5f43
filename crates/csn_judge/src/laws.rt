//! What the crates below say of a certified description.

ghost use Rattle.csn_judge.specs.Known.{Known};

use csn_certify::Plan;

/// What is known of a certified description.
pub(crate) fn known(plan: &Plan)
    ensures { Known plan.now }
{
    csn_desc::laws::meanings_are_bits();
    csn_desc::laws::values_have_their_width();
    csn_desc::laws::trees_have_moves();
    csn_desc::laws::empty_bits_are_followed();
    csn_look::laws::no_bits_are_of_nullable();
    csn_look::laws::bits_end();
    csn_look::laws::bits_stand_behind_parts();
    csn_look::laws::keys_are_of_bits();
    csn_certify::laws::nothing_is_behind_the_last();
    csn_certify::laws::picks_are_right();
    csn_certify::laws::picks_follow();
    csn_certify::laws::turns_have_bits();
    csn_certify::laws::waiting_is_followed();
    // its length tells that it is certified
    let _count = plan.len();
}
