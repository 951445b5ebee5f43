//! Laws over the definitions, each the contract of a function that does nothing.

ghost use Rattle.csn_look.specs.Known.{Known};
ghost use Rattle.csn_look.specs.Laws.{NoBitsAreOfNullable, MeantBitsEnd, EndsAreOctets, MeantBitsStart, FollowedBitsStart};
ghost use Rattle.csn_look.specs.Laws.{EmptyKeysAreAnywhere, FirmNodesHaveBits, KeysOfFirmNodesHaveBits};
ghost use Rattle.csn_look.specs.Laws.{MeantBitsBeginWithKeys, FollowedBitsBeginKeys, NodesHaveKeys, KeysStart};
ghost use Rattle.csn_look.specs.Laws.{WholeKeysAreMeant, BeginningsOfKeysAreFollowed, KeysAreBits, KeysAreShort};
ghost use Rattle.csn_look.specs.Laws.{RootIsReached, ReachedAreOctets, SequencesReach, TruncationsReach};
ghost use Rattle.csn_look.specs.Laws.{RepetitionsReach, FreeRepetitionsReach, ChoicesReach, WindowsReach};
ghost use Rattle.csn_look.specs.Laws.{LabelsReach};
ghost use Rattle.csn_look.specs.Laws.{OnePartMore, FirstTurn, OneTurnMore, TurnsReach, OneFreeTurnMore};
ghost use Rattle.csn_look.specs.Laws.{BehindPartsOfSequences, FollowedBehindPartsOfSequences};
ghost use Rattle.csn_look.specs.Laws.{BehindPartsOfTruncations, BehindLastOfTruncations};
ghost use Rattle.csn_look.specs.Laws.{FollowedBehindPartsOfTruncations, BehindTurns, FollowedBehindTurns};
ghost use Rattle.csn_look.specs.Laws.{BehindFreeTurns, FollowedBehindFreeTurns, BehindAlternatives};
ghost use Rattle.csn_look.specs.Laws.{BehindLabelledParts, NothingStandsAnywhere};

/// What the laws of csn_desc say, as the lemmas here take it.
fn known()
    ensures { Known }
{
    csn_desc::laws::nodes_are_well_formed();
    csn_desc::laws::values_are_kept();
}

/// A node at which no bits have a tree is nullable.
pub fn no_bits_are_of_nullable()
    ensures { NoBitsAreOfNullable }
{
    known();
}

/// Bits that have a tree end where bits of the node may end, and that is an octet position.
pub fn bits_end()
    ensures meant { MeantBitsEnd }
    ensures octet { EndsAreOctets }
{
    known();
}

/// Bits that have a tree, and bits that are followed, begin with a bit that the node may begin with.
pub fn bits_start()
    ensures meant { MeantBitsStart }
    ensures followed { FollowedBitsStart }
{
    known();
}

/// A node that has the empty word as a key at one octet position has it at every one.
pub fn empty_keys_are_anywhere()
    ensures { EmptyKeysAreAnywhere }
{}

/// The bits and the keys of a firm node are not empty.
pub fn firm_nodes_have_bits()
    ensures meant { FirmNodesHaveBits }
    ensures keys { KeysOfFirmNodesHaveBits }
{
    known();
}

/// Bits that have a tree begin with a key of the node, and bits that it follows begin with one or begin one.
pub fn bits_begin_with_keys()
    ensures meant { MeantBitsBeginWithKeys }
    ensures followed { FollowedBitsBeginKeys }
{
    known();
}

/// Keys are keys of something: each node has one; a whole key is bits that have a tree; the node follows the first
/// bits of each; and the first bit of each is one that the node may begin with.
pub fn keys_are_of_bits()
    ensures some { NodesHaveKeys }
    ensures whole { WholeKeysAreMeant }
    ensures followed { BeginningsOfKeysAreFollowed }
    ensures start { KeysStart }
{
    known();
    csn_desc::laws::prefixes_are_followed();
    csn_desc::laws::empty_bits_are_followed();
}

/// A key is bits, and no longer than a word may be.
pub fn keys_are_words()
    ensures bits { KeysAreBits }
    ensures short { KeysAreShort }
{}

/// Parts are reached where they begin: the root with the block, each other node where bits of the parts or turns
/// before it end.
pub fn parts_are_reached()
    ensures root { RootIsReached }
    ensures octet { ReachedAreOctets }
    ensures sequence { SequencesReach }
    ensures truncation { TruncationsReach }
    ensures times { RepetitionsReach }
    ensures many { FreeRepetitionsReach }
    ensures choice { ChoicesReach }
    ensures window { WindowsReach }
    ensures label { LabelsReach }
{
    known();
}

/// And so one part after another: behind the bits of one more part, or of one more turn, the next may begin.
pub fn next_parts_are_reached()
    ensures part { OnePartMore }
    ensures first_turn { FirstTurn }
    ensures turn { OneTurnMore }
    ensures reached { TurnsReach }
    ensures free_turn { OneFreeTurnMore }
{
    known();
}

/// What stands behind a part may stand there: bits of the later parts or turns, or that these follow, and behind
/// them what may stand behind the node.
pub fn bits_stand_behind_parts()
    ensures sequence { BehindPartsOfSequences }
    ensures sequence_followed { FollowedBehindPartsOfSequences }
    ensures truncation { BehindPartsOfTruncations }
    ensures truncation_last { BehindLastOfTruncations }
    ensures truncation_followed { FollowedBehindPartsOfTruncations }
    ensures times { BehindTurns }
    ensures times_followed { FollowedBehindTurns }
    ensures many { BehindFreeTurns }
    ensures many_followed { FollowedBehindFreeTurns }
    ensures choice { BehindAlternatives }
    ensures label { BehindLabelledParts }
    ensures nothing { NothingStandsAnywhere }
{
    known();
}
