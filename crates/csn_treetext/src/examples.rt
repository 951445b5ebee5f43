//! Worked examples of the texts of trees, each a clause of a function that does nothing.

ghost use Rattle.csn_treetext.specs.Examples.{NothingIsADot, FewBitsAreANumber, NoBitsAreB, ManyBitsAreABlockLine};
ghost use Rattle.csn_treetext.specs.Examples.{ManyBitsWereDigits, NoTreesAreBrackets, RowsHaveSpaces};
ghost use Rattle.csn_treetext.specs.Examples.{GreatNumbersAreRefused, ShortBlockLinesAreRefused};
ghost use Rattle.csn_treetext.specs.Examples.{FewDigitsWereRefused};

/// The texts of a few trees.
pub fn worked_examples()
    ensures nothing { NothingIsADot }
    ensures few_bits { FewBitsAreANumber }
    ensures no_bits { NoBitsAreB }
    ensures many_bits { ManyBitsAreABlockLine }
    ensures old_bits { ManyBitsWereDigits }
    ensures no_trees { NoTreesAreBrackets }
    ensures row { RowsHaveSpaces }
{}

/// Where a few bytes stop being the text of a tree.
pub fn worked_places()
    ensures great_number { GreatNumbersAreRefused }
    ensures short_block_line { ShortBlockLinesAreRefused }
    ensures few_digits { FewDigitsWereRefused }
{}
