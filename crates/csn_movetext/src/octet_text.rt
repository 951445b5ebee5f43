ghost use Rattle.std.specs.Prelude.{◌≡◌, ℕ, ◌+◌, ◌*◌, ◌≤◌, List, [], ◌++◌, length, take, IfOk, OnErr};
ghost use Rattle.csn_bits.specs.Octets.{bits_of_octet, bits_of_octets};
ghost use Rattle.csn_movetext.specs.Openings.{HasOpenings};
ghost use Rattle.csn_movetext.specs.Blocks.{WritesFor, credit};
ghost use Rattle.csn_movetext.specs.Lines.{WritesOrWants, EndsBlock};

use crate::block::BlockText;
use crate::fault::BlockFault;
use crate::line::LineEnd;
use crate::openings::Openings;
use csn_certify::{Plan, Steps};
use csn_judge::Fed;
use std::alloc::{AllocError, Global};
use std::sync::ledger::Ledger;

/// The text of the block of a line, which comes in whole octets up to the last one.
#[derive(Drop)]
pub(crate) struct OctetText<'a> {
    /// How many octets have come.
    pub octets: u32,
    /// Its buffer is used again for each line.
    pub block: BlockText<'a>,
}

impl<'a> OctetText<'a> {
    /// No octets.
    pub fn new(alloc: Global, plan: &'a Plan, openings: &'a Openings) -> OctetText<'a>
        requires { HasOpenings plan.now openings.now }
        ensures writes { WritesFor result.block [] }
        ensures octets { result.octets ≡ 0 }
        ensures seen { result.block.seen ≡ 0 }
        ensures form { result.block.form ≡ openings.now.form }
        ensures desc { result.block.desc ≡ plan.now }
        ensures credit { credit result.block ≡ 8 * length plan.now.nodes }
    {
        OctetText {
            octets: 0,
            block: BlockText::new(plan, openings, Vec::new(alloc)),
        }
    }

    /// The next octets, of which all bits belong to the block.
    pub fn take<L: Ledger>(&mut self, octets: &[u8], steps: &mut Steps<L>)
        requires few { self.old.octets + length octets.now ≤ 65536 }
        requires seen { self.old.block.seen ≤ 8 * self.old.octets }
        ensures writes { (b : List ℕ) → WritesOrWants self.old.block b
            → WritesOrWants self.new.block (b ++ bits_of_octets octets.now) }
        ensures octets { self.new.octets ≡ self.old.octets + length octets.now }
        ensures seen { self.new.block.seen ≤ 8 * self.new.octets }
        ensures form { self.new.block.form ≡ self.old.block.form }
        ensures desc { self.new.block.desc ≡ self.old.block.desc }
        ensures steps { steps.new + credit self.new.block
            ≤ steps.old + credit self.old.block + 8 * length self.old.block.desc.nodes * (8 * length octets.now) }
    {
        let count = octets.len() as u32;
        self.octets += count;
        // what came of it is told at the end
        let _fed = self.block.feed(octets, 8 * count, steps);
    }

    /// The block ends with the first bits of an octet, and its text is written behind `out`. The next begins.
    pub fn end<L: Ledger>(
        &mut self,
        octet: u8,
        bits: u8,
        out: &mut Vec<u8>,
        steps: &mut Steps<L>,
    ) -> Result<LineEnd, AllocError>
        requires within { bits ≤ 8 }
        requires few { 8 * self.old.octets + bits ≤ 524288 }
        requires seen { self.old.block.seen ≤ 8 * self.old.octets }
        ensures ends { IfOk result (λ end. (b : List ℕ) → length b ≡ 8 * self.old.octets → WritesOrWants self.old.block b
            → EndsBlock self.old.block.form self.old.block.desc (b ++ take bits (bits_of_octet octet)) end out.old.items out.new.items) }
        ensures err { OnErr result ((tail : List ℕ) × (out.new.items ≡ out.old.items ++ tail)) }
        ensures writes { WritesFor self.new.block [] }
        ensures octets { self.new.octets ≡ 0 }
        ensures seen { self.new.block.seen ≡ 0 }
        ensures form { self.new.block.form ≡ self.old.block.form }
        ensures desc { self.new.block.desc ≡ self.old.block.desc }
        ensures steps { steps.new + credit self.new.block
            ≤ steps.old + credit self.old.block + 8 * length self.old.block.desc.nodes * bits + 8 * length self.old.block.desc.nodes }
    {
        let all = 8 * self.octets + u32::from(bits);
        self.octets = 0;
        let _fed = self.block.feed(&[octet], u32::from(bits), steps);
        match self.block.next_block(out, steps) {
            Ok(()) => Ok(LineEnd::Text { bits: all }),
            Err(BlockFault::Refused { place }) => Ok(LineEnd::Refused { place, bits: all }),
            Err(BlockFault::NoMemory) => Err(AllocError),
        }
    }

    /// The block is given up, and the next begins.
    pub fn give_up<L: Ledger>(&mut self, steps: &mut Steps<L>)
        ensures writes { WritesFor self.new.block [] }
        ensures octets { self.new.octets ≡ 0 }
        ensures seen { self.new.block.seen ≡ 0 }
        ensures form { self.new.block.form ≡ self.old.block.form }
        ensures desc { self.new.block.desc ≡ self.old.block.desc }
        ensures steps { steps.new + credit self.new.block ≤ steps.old + credit self.old.block + 8 * length self.old.block.desc.nodes }
    {
        self.octets = 0;
        self.block.give_up(steps);
    }
}
