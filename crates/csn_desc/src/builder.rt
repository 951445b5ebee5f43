ghost use Rattle.std.specs.Prelude.{◌≡◌, ◌<◌, ◌≤◌, ◌↔◌, IsTrue, ℕ, suc, nat_lt, List, [], ◌∷◌, length, slice_get, Some, MatchOption, IfOk, OnOk, OnErr};
ghost use Rattle.csn_desc.specs.Heads.{IsNextCount};
ghost use Rattle.csn_desc.specs.Building.{entered, left, is_shown, TakesPart, IsNextHead, Takes, MayLeave, IsWhole};
ghost use Rattle.csn_desc.specs.Overfull.{IsOverfull, IsFirstOverfull};

use crate::begun::{
    begun_node, has_its_parts, is_narrow, is_shown, is_unit, push_part, takes_another,
};
use crate::desc::{Desc, MOST_NODES};
use crate::node::{Count, Head, MOST_ADDED, MOST_COUNT, Node};
use crate::parts::Parts;
use crate::reading::Reading;
use crate::symbol::Symbol;
use arrayvec::ArrayVec;
use csn_bits::NoMemory;
use std::alloc::Global;
use std::marker::Model;
use thiserror::Error;

/// The most nodes that are inside one another.
pub const MOST_DEPTH: usize = 64;

/// A description that is built node by node, from the root on: a node is entered inside the last one
/// that was not left, and left after its parts. A contract sees the nodes entered so far, and which of
/// them were not left.
#[derive(Drop)]
pub struct DescBuilder {
    alloc: Global,
    reading: Reading,
    nodes: Vec<Node>,
    // the numbers of the nodes that were not left, the outermost first
    around: ArrayVec<u16, MOST_DEPTH>,
}

impl Model for DescBuilder {
    ghost use Rattle.std.specs.Prelude.{◌≤◌, length, reverse};
    ghost use Rattle.csn_desc.specs.Building.{BuilderV};

    ghost Value = { BuilderV };

    ghost view = { λ b. record { reading = b.reading; nodes = b.nodes.items; around = reverse b.around.items } };

    ghost use Rattle.csn_desc.specs.Standing.{Stands};

    ghost invariant = { λ b. Stands b.nodes.items (reverse b.around.items) };
}

/// Why a node is not entered, or a description not made.
#[derive(Clone, Copy, Debug, PartialEq, Eq, Hash, Error)]
pub enum DescFault {
    #[error("more than 16384 nodes")]
    TooManyNodes,
    #[error("more than 64 nodes inside one another")]
    TooDeep,
    /// Some count stands on this labelled field, and it sees 64 such fields.
    #[error("more than 64 counted fields before node {node}")]
    TooManyVals { node: u16 },
    #[error("out of memory")]
    NoMemory,
}

impl DescBuilder {
    /// No nodes, in this reading. It takes no memory.
    pub fn new(alloc: Global, reading: Reading) -> DescBuilder
        ensures { result ≡ record { reading = reading; nodes = []; around = [] } }
    {
        DescBuilder {
            alloc,
            reading,
            nodes: Vec::new(alloc),
            around: ArrayVec::new(),
        }
    }

    /// Whether a node with this head may be entered: there is no root yet or the innermost node takes a
    /// further part, and the head is well formed there. It takes no memory.
    pub fn takes(&self, head: &Head) -> bool
        ensures { IsTrue result ↔ Takes self.now head.now }
    {
        self.takes_part() && self.is_next_head(head)
    }

    /// Begins the next node, inside the innermost one, and answers its number. `TooManyNodes` comes
    /// where there are 16,384 nodes, and else `TooDeep` where 64 were not left.
    pub fn enter(&mut self, head: Head) -> Result<u16, DescFault>
        requires { Takes self.old head }
        ensures number { IfOk result (λ number. number ≡ length self.old.nodes) }
        ensures entered { OnOk result (self.new ≡ entered head self.old) }
        ensures room { OnOk result ((length self.old.nodes < MOST_NODES) × (length self.old.around < MOST_DEPTH)) }
        ensures many { (result ≡ Err DescFault.TooManyNodes) ↔ (MOST_NODES ≤ length self.old.nodes) }
        ensures deep { (result ≡ Err DescFault.TooDeep) ↔ ((length self.old.nodes < MOST_NODES) × (MOST_DEPTH ≤ length self.old.around)) }
        ensures vals { (node : ℕ) → ¬ (result ≡ Err (DescFault.TooManyVals node)) }
        ensures refused { OnErr result (self.new ≡ self.old) }
    {
        if self.nodes.len() >= MOST_NODES as usize {
            return Err(DescFault::TooManyNodes);
        }
        if self.around.is_full() {
            return Err(DescFault::TooDeep);
        }
        let number = self.nodes.len() as u16;
        let node = begun_node(self.alloc, head, number + 1);
        let above = self.around.last().copied();
        if push_part(&mut self.nodes, above, node).is_err() {
            return Err(DescFault::NoMemory);
        }
        self.around.push(number);
        Ok(number)
    }

    /// Whether a node is entered and has its number of parts. It takes no memory.
    pub fn may_leave(&self) -> bool
        ensures { IsTrue result ↔ MayLeave self.now }
    {
        match self.innermost() {
            None => false,
            Some((node, begun)) => has_its_parts(node, begun),
        }
    }

    /// Leaves the innermost node.
    pub fn leave(&mut self)
        requires { MayLeave self.old }
        ensures { self.new ≡ left self.old }
    {
        self.around.pop();
    }

    /// Whether there is a root, and nothing is entered. It takes no memory.
    pub fn is_whole(&self) -> bool
        ensures { IsTrue result ↔ IsWhole self.now }
    {
        !self.nodes.is_empty() && self.around.is_empty()
    }

    /// The description that has these nodes. `TooManyVals` comes where a field that some count stands on
    /// sees 64 such fields, and tells the first.
    pub fn finish(self) -> Result<Desc, DescFault>
        requires { IsWhole self }
        ensures ok { IfOk result (λ desc. desc ≡ record { reading = self.reading; nodes = self.nodes }) }
        ensures fits { OnOk result ((i : ℕ) → ¬ IsOverfull self.nodes i) }
        ensures vals { (node : ℕ) → result ≡ Err (DescFault.TooManyVals node) → IsFirstOverfull self.nodes node }
        ensures others { (¬ (result ≡ Err DescFault.TooManyNodes)) × (¬ (result ≡ Err DescFault.TooDeep)) }
    {
        Desc::from_nodes(self.alloc, self.reading, self.nodes)
    }

    /// Whether there is no root yet, or the innermost node takes a further part.
    fn takes_part(&self) -> bool
        ensures { IsTrue result ↔ TakesPart self.now.nodes self.now.around }
    {
        match self.innermost() {
            None => self.nodes.is_empty(),
            Some((node, begun)) => takes_another(node, begun),
        }
    }

    /// The innermost node, and whether a part of it was entered.
    fn innermost(&self) -> Option<(&Node, bool)>
        ensures { MatchOption result (self.now.around ≡ []) (λ found. (i : ℕ) × (rest : List ℕ)
            × (self.now.around ≡ i ∷ rest) × (slice_get self.now.nodes i ≡ Some found.0.now)
            × (found.1 ≡ nat_lt (suc i) (length self.now.nodes))) }
    {
        let at = *self.around.last()? as usize;
        Some((&self.nodes[at], at + 1 < self.nodes.len()))
    }

    /// Whether the head is well formed where the next node begins.
    fn is_next_head(&self, head: &Head) -> bool
        ensures { IsTrue result ↔ IsNextHead self.now head.now }
    {
        match head {
            Head::Lits(run) => run.len() > 0,
            Head::Spare(symbol) => matches!(symbol, Symbol::Zero | Symbol::Low),
            Head::Field { unit, count } => is_unit(*unit) && self.is_next_count(count),
            Head::Times(count) => self.is_next_count(count),
            Head::Window { unit, count } => is_unit(*unit) && self.is_next_count(count),
            _ => true,
        }
    }

    /// Whether the count is well formed where the next node begins.
    fn is_next_count(&self, count: &Count) -> bool
        ensures { IsTrue result ↔ IsNextCount self.now count.now }
    {
        match count {
            Count::Fixed(n) => 1 <= *n && *n <= MOST_COUNT,
            Count::Counted { m, field, c } => {
                if *m == 0 || *c > MOST_ADDED {
                    return false;
                }
                if !self.shows(*field) {
                    return false;
                }
                is_narrow(&self.nodes, *field)
            }
        }
    }

    /// Whether the next node sees this one.
    fn shows(&self, field: u16) -> bool
        ensures { result ≡ is_shown self.now.nodes self.now.around field }
    {
        is_shown(self.nodes.as_slice(), self.around.as_slice(), field)
    }
}
