//! Laws over the definitions, each the contract of a function that does nothing.

ghost use Rattle.csn_resolve.specs.Laws.{NodesAreGivenOnce, VoidGivesNothing, StepsAreWalkedOnce, ResolvedOnce};
ghost use Rattle.csn_resolve.specs.Laws.{RefusalsAreOneList, RefusedOnce, RefusedOrResolved, EmptinessIsDecided};
ghost use Rattle.csn_resolve.specs.Laws.{WidthsAreDecided, WalksEnd, RefusalsEnd, NodesAreGiven, NodesAreNumbered};
ghost use Rattle.csn_resolve.specs.Laws.{NamesAreAnswered, ResolvedAreDescriptions, EmptyBitsAreFollowed};
ghost use Rattle.csn_resolve.specs.Laws.{MeaningsAreKept, FollowedAreKept, StringsAreKept, BlocksAreFollowedAlike};
ghost use Rattle.csn_resolve.specs.Laws.{PlacesAreKept};

/// An expression gives one list of nodes, at one number; so a named rule has one description.
pub fn descriptions_are_one()
    ensures expression { NodesAreGivenOnce }
    ensures name { ResolvedOnce }
{}

/// An expression that is empty of strings gives no nodes.
pub fn void_gives_nothing()
    ensures { VoidGivesNothing }
{}

/// The walk through an expression has one list of steps, and a named rule one list of refusals; so it is
/// refused in one way, and not where it has a description.
pub fn refusals_are_one()
    ensures walk { StepsAreWalkedOnce }
    ensures list { RefusalsAreOneList }
    ensures first { RefusedOnce }
    ensures or_resolved { RefusedOrResolved }
{}

/// Every expression has a walk, and every name a list of refusals: names that are being put in are not
/// entered, and what is empty of strings and which widths are constant is decided.
pub fn walks_end()
    ensures empty { EmptinessIsDecided }
    ensures widths { WidthsAreDecided }
    ensures walk { WalksEnd }
    ensures list { RefusalsEnd }
{}

/// A named rule that is not refused on the walk gives nodes, and these are numbered through from the
/// root, each before those inside it.
pub fn nodes_are_given()
    ensures given { NodesAreGiven }
    ensures numbered { NodesAreNumbered }
{}

/// A named rule means what its description means, and follows what that follows, where the rules are shaped
/// as those of a text; so a block has the same trees and the same place by both.
pub fn resolving_keeps_meanings()
    ensures means { MeaningsAreKept }
    ensures follows { FollowedAreKept }
    ensures strings { StringsAreKept }
    ensures followed { BlocksAreFollowedAlike }
    ensures places { PlacesAreKept }
{}

/// By rules that are shaped as those of a text, every name is refused or has a description.
pub fn names_are_answered()
    ensures { NamesAreAnswered }
{}

/// What a named rule has is a description: its nodes are few, numbered through and well formed.
pub fn resolved_are_descriptions()
    ensures { ResolvedAreDescriptions }
{}

/// Where nothing is refused, the named rule follows the empty bits.
pub fn empty_bits_are_followed()
    ensures { EmptyBitsAreFollowed }
{
    csn_desc::laws::empty_bits_are_followed();
}
