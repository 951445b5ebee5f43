//! Laws over the definitions, each the contract of a function that does nothing.

ghost use Rattle.csn_encode.specs.Laws.{OneBlock, MisfitsHaveNoBits, FirstMisfitIsOne, TreesFitOrMiss, BlocksHaveFittingTrees, TreesComeBack, BlocksComeBack};

/// Two bit strings that have one tree are equal.
pub fn one_block()
    ensures { OneBlock }
{}

/// A tree that misses a description has no bits that end within a block.
pub fn misfits_have_no_bits()
    ensures { MisfitsHaveNoBits }
{}

/// A tree has at most one first misfit.
pub fn first_misfit_is_one()
    ensures { FirstMisfitIsOne }
{}

/// Every tree whose leaves are bits has a block or a misfit, where the description is certified. So such a
/// tree has a block exactly where it has no misfit, and that block alone.
pub fn trees_fit_or_miss()
    ensures some { TreesFitOrMiss }
    ensures blocks { BlocksHaveFittingTrees }
{
    csn_certify::laws::turns_have_bits();
}

/// What is read from the block that a tree was written as is that tree; and what the tree that was read from
/// a block is written as is that block, bit by bit, also where its spare bits are not those of a sender.
pub fn both_ways()
    ensures trees { TreesComeBack }
    ensures blocks { BlocksComeBack }
{
    csn_certify::laws::blocks_have_one_tree();
}
