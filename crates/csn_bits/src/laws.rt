//! What holds of block lines, for proofs that stand above this crate. The functions do nothing.
ghost use Rattle.csn_bits.specs.Laws.{FaultOrBlock, SpellsOneBlock, WrittenApart, WrittenIsRead};

/// No two blocks share a written line.
pub fn written_apart()
    ensures { WrittenApart }
{}

/// What is written for a block is read back as its bits.
pub fn written_is_read()
    ensures { WrittenIsRead }
{}

/// A line spells one block at most.
pub fn spells_one_block()
    ensures { SpellsOneBlock }
{}

/// A line has no fault exactly where it spells a block.
pub fn fault_or_block()
    ensures { FaultOrBlock }
{}
