//! Laws over the definitions, each the contract of a function that does nothing.

ghost use Rattle.csn_certify.specs.Known.{Known};
ghost use Rattle.csn_certify.specs.Laws.{FirstConflictIsOne, CertifiedHasNoConflict, LongerWordsCertify};
ghost use Rattle.csn_certify.specs.Laws.{NoContinuation, BlocksHaveOneTree, PicksAreOne, TakesStay};
ghost use Rattle.csn_certify.specs.Laws.{ChoicesTakeTheOne, ChoicesRefuseNone, RepetitionsGoOn, RepetitionsStop};
ghost use Rattle.csn_certify.specs.Laws.{FollowedTakeTheOne, FollowedRefuseNone, FollowedGoOn, FollowedStop};
ghost use Rattle.csn_certify.specs.Laws.{FollowedTurnsStop, FreeTurnsHaveBits, CountedTurnsHaveBits};
ghost use Rattle.csn_certify.specs.Laws.{NoBitFollowsTheLast, NothingIsBehindTheLast, NoBitFollowsComponents};
ghost use Rattle.csn_certify.specs.Laws.{NoBitFollowsTrees, TruncationsGoOn, FollowedTruncationsGoOn, TruncationsEnd};
ghost use Rattle.csn_certify.specs.Laws.{WaitingIsFollowed, WaitingHoldsFew, WaitingEndsInRefusal};
ghost use Rattle.csn_certify.specs.Laws.{RefusedHasNoEmptyTree, FollowedBeginStrings, FollowedInOneWay};

/// What the laws of csn_desc and csn_look say, as the lemmas here take it.
fn known()
    ensures { Known }
{
    csn_desc::laws::nodes_are_well_formed();
    csn_desc::laws::values_are_kept();
    csn_look::laws::no_bits_are_of_nullable();
    csn_look::laws::bits_end();
    csn_look::laws::bits_start();
    csn_look::laws::bits_begin_with_keys();
    csn_look::laws::keys_are_of_bits();
    csn_look::laws::parts_are_reached();
    csn_look::laws::bits_stand_behind_parts();
}

/// A description has at most one first conflict, and is not certified where it has one.
pub fn first_conflict_is_one()
    ensures one { FirstConflictIsOne }
    ensures not_certified { CertifiedHasNoConflict }
{}

/// A description that is certified with words of some length is certified with longer words: with 8
/// bits, and so with 12.
pub fn longer_words_certify()
    ensures { LongerWordsCertify }
{}

/// Where the first bits of a block can be followed and one more of them cannot, no string of any length
/// begins with these and that one.
pub fn no_continuation()
    ensures { NoContinuation }
{
    csn_desc::laws::prefixes_are_followed();
    csn_desc::laws::strings_are_followed();
}

/// Any bits, of any length, have at most one tree where the description is certified. The lemma that carries it is
/// `one_tree` of csn_claims (`proofs/OneTree.antt`): bits of one node that go on alike, each with something behind them
/// that may stand there, are the same bits with the same tree.
pub fn blocks_have_one_tree()
    ensures { BlocksHaveOneTree }
{
    known();
}

/// Look-ahead has at most one answer where the description is certified.
pub fn picks_are_one()
    ensures { PicksAreOne }
{}

/// What look-ahead takes with some held bits, it takes with more, where the description is certified.
pub fn takes_stay()
    ensures { TakesStay }
{
    csn_look::laws::keys_are_of_bits();
    csn_look::laws::firm_nodes_have_bits();
    csn_look::laws::parts_are_reached();
}

/// What look-ahead answers is right, where the description is certified: every tree of what lies ahead at a
/// choice has the alternative that is taken, and there is none where it refuses; every tree at a free
/// repetition has a turn of it where its part is begun, and none where it is left.
pub fn picks_are_right()
    ensures takes { ChoicesTakeTheOne }
    ensures refuses { ChoicesRefuseNone }
    ensures goes_on { RepetitionsGoOn }
    ensures stops { RepetitionsStop }
{
    known();
}

/// And so of what is followed: by no other alternative of a choice than the one that is taken, and by none
/// where look-ahead refuses while the block goes on; by turns of a free repetition, and not by it where it is
/// left.
pub fn picks_follow()
    ensures takes { FollowedTakeTheOne }
    ensures refuses { FollowedRefuseNone }
    ensures goes_on { FollowedGoOn }
    ensures stops { FollowedStop }
    ensures turns_stop { FollowedTurnsStop }
{
    csn_desc::laws::strings_are_followed();
    known();
}

/// Each turn of a repetition of a certified description, free or by number, has a bit.
pub fn turns_have_bits()
    ensures free { FreeTurnsHaveBits }
    ensures counted { CountedTurnsHaveBits }
{
    known();
}

/// Nothing may stand behind a rest, behind padding and behind a truncation of a certified description: not
/// where they may end, and not where some first components of a truncation end, also where the last of these
/// took no bits.
pub fn nothing_is_behind_the_last()
    ensures ends { NoBitFollowsTheLast }
    ensures ahead { NothingIsBehindTheLast }
    ensures components { NoBitFollowsComponents }
    ensures trees { NoBitFollowsTrees }
{
    known();
}

/// A truncation takes its next component where bits lie ahead, and there alone.
pub fn truncations_go_on()
    ensures means { TruncationsGoOn }
    ensures follows { FollowedTruncationsGoOn }
    ensures ends { TruncationsEnd }
{
    csn_desc::laws::strings_are_followed();
}

/// Where look-ahead waits, the held bits are followed, and are fewer than it looks at; the end of the block
/// behind them is refused. Where it refuses no bits at an end, a choice has no tree without bits.
pub fn waiting_is_followed()
    ensures followed { WaitingIsFollowed }
    ensures few { WaitingHoldsFew }
    ensures ends { WaitingEndsInRefusal }
    ensures empty { RefusedHasNoEmptyTree }
{
    csn_look::laws::keys_are_of_bits();
    csn_look::laws::keys_are_words();
    known();
}

/// Where a description has no windows, bits that can be followed are the first of a string.
pub fn followed_begin_strings()
    ensures { FollowedBeginStrings }
{
    known();
}

/// Bits are followed in one way where the description is certified: a node does not follow bits that have a
/// tree there together with a bit that may stand behind it.
pub fn followed_in_one_way()
    ensures { FollowedInOneWay }
{
    known();
}
