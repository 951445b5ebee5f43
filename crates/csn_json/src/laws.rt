//! Laws over trees as JSON, each the contract of a function that does nothing.

ghost use Rattle.csn_json.specs.Laws.{TreesHaveOneValue, ValuesHaveOneTree, TextsAreDecided, TextsHaveOneTree};
ghost use Rattle.csn_json.specs.Laws.{TextsAreJoined, TextsAreNotRefused, TreeTextsShareTrees, WrittenIsShown};

/// A tree has one value, a value shows one tree, and so does a text.
pub fn texts_have_one_tree()
    ensures value { TreesHaveOneValue }
    ensures tree { ValuesHaveOneTree }
    ensures text { TextsHaveOneTree }
{
    csn_bits::laws::written_apart();
}

/// What shows a tree is refused for want of memory alone. So what was written for a tree is read back as
/// it.
pub fn trees_are_not_refused()
    ensures { TextsAreNotRefused }
{}

/// All bytes show a tree or are refused.
pub fn texts_are_decided()
    ensures { TextsAreDecided }
{
    csn_bits::laws::written_is_read();
    csn_bits::laws::fault_or_block();
}

/// What is written for a tree shows it.
pub fn written_is_shown()
    ensures { WrittenIsShown }
{}

/// A tree can be shown as JSON exactly where it has a text of the plain form.
pub fn plain_texts_share_trees()
    ensures { TreeTextsShareTrees }
{}

/// What is written for a tree is joined of what is written for the trees in it.
pub fn texts_are_joined()
    ensures { TextsAreJoined }
{}
