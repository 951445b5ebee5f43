//! Laws over the definitions, each the contract of a function that does nothing.

ghost use Rattle.csn_desc.specs.Laws.{PrefixesAreFollowed, StringsAreFollowed, MeaningsAreBits, FollowedAreBits};
ghost use Rattle.csn_desc.specs.Laws.{EmptyBitsAreFollowed, EmptyBlocksAreFollowed, MeaningIsDecided};
ghost use Rattle.csn_desc.specs.Laws.{FollowingIsDecided, BlocksHaveAPlace, BlocksHaveOnePlace, TreesHaveMoves};
ghost use Rattle.csn_desc.specs.Laws.{TreesHaveOneListOfMoves, MovesAreOfOneTree, ValuesHaveTheirWidth};
ghost use Rattle.csn_desc.specs.Laws.{NumbersFitTheirWidth, ValuesStayThere, ValuesStayFitting, NoValuesFit};
ghost use Rattle.csn_desc.specs.Laws.{CountsAreNumbers, NodesAreWellFormed, WordsAreLabels, WordsStandBeforeLabels};

/// The first few of bits that a node follows are followed by it.
pub fn prefixes_are_followed()
    ensures { PrefixesAreFollowed }
{}

/// Bits that have a tree at a node are followed by it.
pub fn strings_are_followed()
    ensures { StringsAreFollowed }
{}

/// Bits that have a tree at a node are zeros and ones, and so are bits that it follows.
pub fn meanings_are_bits()
    ensures meant { MeaningsAreBits }
    ensures followed { FollowedAreBits }
{}

/// A well-formed node follows the empty bits, where the labelled parts that it sees have values; so
/// every description follows the empty block.
pub fn empty_bits_are_followed()
    ensures node { EmptyBitsAreFollowed }
    ensures block { EmptyBlocksAreFollowed }
{}

/// Bits have a tree at a node or have none, and are followed by it or are not.
pub fn following_is_decided()
    ensures meant { MeaningIsDecided }
    ensures followed { FollowingIsDecided }
{}

/// A block has exactly one place up to which a description can follow it.
pub fn blocks_have_one_place()
    ensures some { BlocksHaveAPlace }
    ensures one { BlocksHaveOnePlace }
{}

/// A tree that bits have has moves, and these take the bits; and no tree has two lists of moves at one
/// node and place.
pub fn trees_have_moves()
    ensures some { TreesHaveMoves }
    ensures one { TreesHaveOneListOfMoves }
{}

/// Two trees with the same moves at one node, at one place, are one tree.
pub fn moves_are_of_one_tree()
    ensures { MovesAreOfOneTree }
{}

/// A labelled field of constant width has bits of that width, and the number that they write is below
/// the power of two with this exponent.
pub fn values_have_their_width()
    ensures width { ValuesHaveTheirWidth }
    ensures number { NumbersFitTheirWidth }
{}

/// Values that are there, and fit the widths of their fields, are so behind a further part too; there are none at
/// the root. A count on a field whose value is there is a number.
pub fn values_are_kept()
    ensures there { ValuesStayThere }
    ensures fitting { ValuesStayFitting }
    ensures none { NoValuesFit }
    ensures counts { CountsAreNumbers }
{}

/// Each node of a description is well formed where it stands.
pub fn nodes_are_well_formed()
    ensures { NodesAreWellFormed }
{}

/// A word is a label, and so are a word, a space and a label.
pub fn words_make_labels()
    ensures one { WordsAreLabels }
    ensures more { WordsStandBeforeLabels }
{}
