//! Laws over the texts of trees, each the contract of a function that does nothing.

ghost use Rattle.csn_treetext.specs.Laws.{TreeTextsDiffer, OldTextsDiffer, FrontsBeginTexts, TextsAreDecided, TextsHaveOnePlace, VersionsShareTrees};

/// No two trees share a text, in either version.
pub fn texts_are_of_one_tree()
    ensures today { TreeTextsDiffer }
    ensures before { OldTextsDiffer }
{}

/// What stands before bytes that begin the text of a tree begins one.
pub fn fronts_begin_texts()
    ensures { FrontsBeginTexts }
{}

/// A text is that of a tree or has a place where it is wrong, and one place.
pub fn texts_are_decided()
    ensures decided { TextsAreDecided }
    ensures place { TextsHaveOnePlace }
{}

/// A tree that has a text in one version has one in the other.
pub fn versions_share_trees()
    ensures { VersionsShareTrees }
{}
