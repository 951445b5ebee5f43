//! Laws over the definitions, each the contract of a function that does nothing.

ghost use Rattle.csn_movetext.specs.Laws.{MovesWriteTheirTree, BlocksAreWritten, TreesFit, TreesHaveTexts};

/// The moves of a tree write it in either form.
pub fn moves_write_their_tree()
    ensures node { MovesWriteTheirTree }
    ensures block { BlocksAreWritten }
{
    csn_desc::laws::meanings_are_bits();
    csn_json::laws::texts_are_joined();
}

/// The tree of a block by a description has a text in either form.
pub fn trees_have_texts()
    ensures fits { TreesFit }
    ensures texts { TreesHaveTexts }
{
    csn_desc::laws::meanings_are_bits();
}
