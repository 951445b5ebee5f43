//! Laws over the definitions, each the contract of a function that does nothing.

ghost use Rattle.csn_grammar.specs.Laws.{PrefixesAreFollowed, BlockPrefixesAreFollowed, MeaningsAreFollowed};
ghost use Rattle.csn_grammar.specs.Laws.{StringsAreFollowed, MeaningsAreBits, FollowedAreBits, VoidMeansNothing};
ghost use Rattle.csn_grammar.specs.Laws.{VoidFollowsNothing, AlternativesAreKeptOnce, EmptyBitsAreFollowed};
ghost use Rattle.csn_grammar.specs.Laws.{EmptyBlocksAreFollowed, BlocksHaveAPlace, BlocksHaveOnePlace};
ghost use Rattle.csn_grammar.specs.Laws.{TextsHaveOneListOfRules, TextsAreDecided, RulesHaveNoFault};
ghost use Rattle.csn_grammar.specs.Laws.{TextsHaveOnePlace, RulesOfTextsAreShaped, LabelsOfTextsAreLabels};

/// The first few of bits that an expression follows are followed by it, and so are those of a block.
pub fn prefixes_are_followed()
    ensures expression { PrefixesAreFollowed }
    ensures block { BlockPrefixesAreFollowed }
{}

/// Bits that have a tree are followed.
pub fn strings_are_followed()
    ensures expression { MeaningsAreFollowed }
    ensures block { StringsAreFollowed }
{}

/// Bits that an expression means are zeros and ones, and so are bits that it follows.
pub fn meanings_are_bits()
    ensures meant { MeaningsAreBits }
    ensures followed { FollowedAreBits }
{}

/// An expression that is empty of strings means no bits, not even the empty ones, and follows none.
pub fn void_means_nothing()
    ensures meant { VoidMeansNothing }
    ensures followed { VoidFollowsNothing }
{}

/// The alternatives of a choice are kept in one way.
pub fn alternatives_are_kept_once()
    ensures { AlternativesAreKeptOnce }
{}

/// A well-formed expression follows the empty bits, where the labels that it sees have values; so a
/// well-formed rule follows the empty block.
pub fn empty_bits_are_followed()
    ensures expression { EmptyBitsAreFollowed }
    ensures block { EmptyBlocksAreFollowed }
{}

/// A block has one place up to which it can be followed, where it is decided what can be.
pub fn blocks_have_one_place()
    ensures some { BlocksHaveAPlace }
    ensures one { BlocksHaveOnePlace }
{}

/// A text has at most one list of rules.
pub fn one_list_of_rules()
    ensures { TextsHaveOneListOfRules }
{
    csn_lexer::laws::one_list_of_tokens();
}

/// A text has rules or a place where it is wrong, not both, and one place.
pub fn texts_are_decided()
    ensures decided { TextsAreDecided }
    ensures apart { RulesHaveNoFault }
    ensures place { TextsHaveOnePlace }
{
    csn_lexer::laws::one_thing_is_next();
}

/// The rules of a text have what nodes need: no empty word, two items or alternatives at least, and one
/// component at least; and their labels are words with one space between.
pub fn rules_of_texts_are_shaped()
    ensures shaped { RulesOfTextsAreShaped }
    ensures labelled { LabelsOfTextsAreLabels }
{}
