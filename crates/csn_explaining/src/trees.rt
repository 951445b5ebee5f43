//! Lines of trees, each answered by the block that has it, or in words where it does not fit.

ghost use Rattle.std.specs.Prelude.{◌≡◌, ◌<◌, ◌≤◌, length};
ghost use Rattle.csn_bits.specs.declared.feed.TheConstants.{MOST_LINE};
ghost use Rattle.csn_explaining.specs.Ways.{root_way};

use crate::misfits::push_misfit;
use crate::path::PathText;
use crate::teller::{Answered, LineTeller};
use crate::text::push_count;
use csn_bits::Bits;
use csn_certify::{Plan, Steps};
use csn_desc::Tree;
use csn_encode::{EncodeFault, encode};
use csn_treetext::{TextFault, read_tree};
use std::alloc::{AllocError, Global};
use std::marker::Brand;
use std::sync::ledger::{Blank, Ledger};

/// Answers lines of trees by a plan.
#[derive(Drop)]
pub struct TreeTeller<'a> {
    plan: &'a Plan,
    path: PathText,
}

/// The block that has a tree, with a counter of steps.
fn encode_with<L: Ledger>(
    alloc: Global,
    plan: &Plan,
    tree: &Tree,
    blank: Blank,
) -> Result<Bits, EncodeFault>
    requires name { blank.name ≡ L.name }
    requires parts { blank.parts ≡ L.parts }
    requires some { 0 < blank.parts }
{
    let mut steps = Steps::<L>::new(blank);
    encode(alloc, plan, tree, &mut steps)
}

/// Writes a block.
fn push_block(alloc: Global, block: &Bits, out: &mut Vec<u8>) -> Result<(), AllocError> {
    let Ok(line) = block.to_hex_line(alloc) else {
        return Err(AllocError);
    };
    out.extend_from_slice(b"ok ")?;
    out.extend_from_slice(&line)
}

/// Writes the answer to a line that is no text of a tree: how many of its bytes begin one.
fn push_text_fault(fault: TextFault, out: &mut Vec<u8>) -> Result<(), AllocError> {
    match fault {
        TextFault::Place { place } => {
            out.extend_from_slice(b"bad ")?;
            push_count(out, place)
        }
        TextFault::NoMemory => Err(AllocError),
    }
}

impl<'a> TreeTeller<'a> {
    /// Answers by this plan. It takes no memory.
    pub fn new(alloc: Global, plan: &'a Plan) -> TreeTeller<'a>
        ensures plan { result.plan ≡ plan.entry }
        ensures path { result.path ≡ root_way }
    {
        TreeTeller {
            plan,
            path: PathText::new(alloc),
        }
    }

    /// Answers a tree.
    fn answer(
        &mut self,
        alloc: Global,
        tree: &Tree,
        out: &mut Vec<u8>,
    ) -> Result<Answered, AllocError> {
        match encode_with::<Brand>(alloc, self.plan, tree, Blank::new(1)) {
            Ok(block) => {
                push_block(alloc, &block, out)?;
                Ok(Answered::Given)
            }
            Err(EncodeFault::Misfit(misfit)) => {
                push_misfit(out, &mut self.path, self.plan, tree, &misfit)?;
                Ok(Answered::Refused)
            }
            Err(EncodeFault::NoMemory) => Err(AllocError),
        }
    }

    /// Answers a line.
    fn answer_line(
        &mut self,
        alloc: Global,
        line: &[u8],
        out: &mut Vec<u8>,
    ) -> Result<Answered, AllocError>
        requires { length line.now ≤ MOST_LINE }
    {
        match read_tree(alloc, line) {
            Ok(tree) => self.answer(alloc, &tree, out),
            Err(fault) => {
                push_text_fault(fault, out)?;
                Ok(Answered::Refused)
            }
        }
    }
}

impl<'a> LineTeller for TreeTeller<'a> {
    fn tell(
        &mut self,
        alloc: Global,
        line: &[u8],
        out: &mut Vec<u8>,
    ) -> Result<Answered, AllocError> {
        let mut answer = Vec::new(alloc);
        let answered = self.answer_line(alloc, line, &mut answer)?;
        answer.push(b'\n')?;
        out.extend_from_slice(&answer)?;
        Ok(answered)
    }
}
