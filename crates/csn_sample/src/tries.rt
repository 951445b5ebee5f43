//! Which small changes may still be tried at which nodes.

ghost use Rattle.std.specs.Prelude.{◌≡◌, ◌*◌, ◌-◌, ◌<◌, ◌↔◌, IfOk, IsTrue, replicate, slice_set};
ghost use Rattle.csn_sample.specs.Tries.{kind_of, place_of, tries_left};

use crate::change::Change;
use csn_bits::NoMemory;
use std::alloc::Global;
use std::marker::Model;

/// How many kinds of change there are.
const KINDS: usize = 4;

/// How often a kind of change is tried at a node, until a block is refused.
const MOST_TRIES: u8 = 8;

/// How often each kind of change may still be tried at each node of a description. A contract sees the list of these
/// numbers, those of one node after those of another.
#[derive(Drop)]
pub struct Tries {
    left: Vec<u8>,
}

impl Model for Tries {
    ghost use Rattle.std.specs.Prelude.{List, ℕ};

    ghost Value = { List ℕ };

    ghost view = { λ t. t.left.items };
}

impl Tries {
    /// Nothing was tried, at so many nodes.
    pub fn new(alloc: Global, nodes: u16) -> Result<Tries, NoMemory>
        ensures { IfOk result (λ tries. tries ≡ replicate (KINDS * nodes) MOST_TRIES) }
    {
        Ok(Tries {
            left: vec![in alloc; MOST_TRIES; KINDS * usize::from(nodes)]?,
        })
    }

    /// One try less of this kind of change at a node. Whether there was one.
    pub(crate) fn take(&mut self, node: u16, change: Change) -> bool
        ensures left { IsTrue result ↔ (0 < tries_left self.old node change) }
        ensures less { self.new ≡ slice_set self.old (place_of node change) (tries_left self.old node change - 1) }
    {
        let at = place_of(node, change);
        if at >= self.left.len() || self.left[at] == 0 {
            return false;
        }
        self.left[at] -= 1;
        true
    }

    /// No try more of this kind of change at a node.
    pub(crate) fn end(&mut self, node: u16, change: Change)
        ensures { self.new ≡ slice_set self.old (place_of node change) 0 }
    {
        let at = place_of(node, change);
        if at < self.left.len() {
            self.left[at] = 0;
        }
    }
}

/// Where the tries of a kind of change at a node stand.
fn place_of(node: u16, change: Change) -> usize
    ensures { result ≡ place_of node change }
{
    KINDS * usize::from(node) + kind_of(change)
}

/// The number of a kind of change.
fn kind_of(change: Change) -> usize
    ensures kind { result ≡ kind_of change }
    ensures below { result < KINDS }
{
    match change {
        Change::Turned { .. } => 0,
        Change::Cut { .. } => 1,
        Change::Behind { .. } => 2,
        Change::Twice { .. } => 3,
    }
}
