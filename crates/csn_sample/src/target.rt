//! Ways that were not met, towards which blocks are drawn one after another.

ghost use Rattle.std.specs.Prelude.{◌≡◌, ◌+◌, ◌*◌, ◌≤◌, ◌↔◌, ◌==◌, [], IfOk, IsTrue, if◌then◌else◌, length};
ghost use Rattle.csn_sample.specs.Covering.{AllUnmet, HasMarks};

use crate::aim::{Aim, is_wanted};
use crate::covering::{Way, ways_unset};
use crate::marks::WayMarks;
use csn_bits::NoMemory;
use csn_certify::{Plan, Steps};
use csn_desc::{Node, Parts};
use std::alloc::Global;
use std::sync::ledger::Ledger;

/// How many blocks are drawn towards a way until the next one has its turn.
const DRAWS_EACH: u32 = 32;

/// A way that was not met, among all that were not when the round began.
#[derive(Drop)]
pub(crate) struct Target {
    ways: Vec<Way>,
    at: usize,
    /// How many blocks are still drawn towards it.
    left: u32,
    /// For each node whether a block that goes the way goes through it.
    wanted: Vec<bool>,
    /// How many rounds are over.
    pub round: u32,
}

impl Target {
    /// The first way that is not met.
    pub fn new<L: Ledger>(
        alloc: Global,
        plan: &Plan,
        marks: &WayMarks,
        steps: &mut Steps<L>,
    ) -> Result<Target, NoMemory>
        requires { HasMarks plan.now marks.now }
        ensures ways { IfOk result (λ target. AllUnmet plan.now (length plan.now.nodes) target.ways.items marks.now) }
        ensures steps { steps.new ≤ steps.old + 2 * length plan.now.nodes }
    {
        let ways = ways_unset(alloc, plan, marks, steps)?;
        let wanted = leading_to(alloc, plan, ways.first(), steps)?;
        Ok(Target {
            ways,
            at: 0,
            left: DRAWS_EACH,
            wanted,
            round: 0,
        })
    }

    /// Whether no way was left when the round began.
    pub fn is_none(&self) -> bool
        ensures { IsTrue result ↔ (self.now.ways.items ≡ []) }
    {
        self.ways.len() == 0
    }

    /// What the next block goes towards. In the first round it has few bits.
    pub fn aim(&mut self, few: u32, most: u32) -> Aim<'_>
        ensures wanted { result.wanted.now ≡ self.old.wanted.items }
        ensures most { result.most ≡ (if self.old.round == 0 then few else most) }
    {
        self.left = self.left.saturating_sub(1);
        Aim {
            wanted: &self.wanted,
            short: self.left % 2 == 0,
            most: if self.round == 0 { few } else { most },
        }
    }

    /// Goes on to the next way, where this one is met or has had its draws.
    pub fn go_on<L: Ledger>(
        &mut self,
        alloc: Global,
        plan: &Plan,
        marks: &WayMarks,
        steps: &mut Steps<L>,
    ) -> Result<(), NoMemory>
        requires { HasMarks plan.now marks.now }
        ensures { steps.new ≤ steps.old + 2 * length plan.now.nodes }
    {
        if self.left > 0 && self.first_unmet(self.at, marks) == Some(self.at) {
            return Ok(());
        }
        match self.first_unmet(self.at.saturating_add(1), marks) {
            Some(at) => self.at = at,
            None => {
                self.ways = ways_unset(alloc, plan, marks, steps)?;
                self.at = 0;
                self.round = self.round.saturating_add(1);
            }
        }
        self.left = DRAWS_EACH;
        self.wanted = leading_to(alloc, plan, self.ways.get(self.at), steps)?;
        Ok(())
    }

    /// The first of the ways from one on that is not met.
    fn first_unmet(&self, from: usize, marks: &WayMarks) -> Option<usize> {
        for at in from..self.ways.len() {
            let way = self.ways[at];
            if !marks.has(way.node, way.number) {
                return Some(at);
            }
        }
        None
    }
}

/// For each node whether a block that goes a way goes through it.
fn leading_to<L: Ledger>(
    alloc: Global,
    plan: &Plan,
    way: Option<&Way>,
    steps: &mut Steps<L>,
) -> Result<Vec<bool>, NoMemory>
    ensures { steps.new ≤ steps.old + length plan.now.nodes }
{
    let mut wanted = vec![in alloc; false; usize::from(plan.len())]?;
    let Some(way) = way else {
        return Ok(wanted);
    };
    for i in (0..plan.len()).rev() {
        let node = plan.node(i, steps);
        if i == way.node {
            want_part(node, way.number, &mut wanted);
        }
        if i == way.node || has_wanted(node, &wanted) {
            want(&mut wanted, i);
        }
    }
    Ok(wanted)
}

/// The alternative of a choice is wanted, or the last of so many components.
fn want_part(node: &Node, number: u16, wanted: &mut [bool]) {
    match node {
        Node::Choice(parts) if number < parts.len() => want(wanted, parts.get(number)),
        Node::Trunc(parts) if 0 < number && number <= parts.len() => {
            want(wanted, parts.get(number - 1));
        }
        _ => {}
    }
}

/// A block is wanted that goes through a node.
fn want(wanted: &mut [bool], i: u16) {
    if usize::from(i) < wanted.len() {
        wanted[usize::from(i)] = true;
    }
}

/// Whether some part of a node is wanted.
fn has_wanted(node: &Node, wanted: &[bool]) -> bool {
    match node {
        Node::Seq(parts) | Node::Choice(parts) | Node::Trunc(parts) => one_is_wanted(parts, wanted),
        Node::Times { part, .. }
        | Node::Many(part)
        | Node::Window { part, .. }
        | Node::Named { part, .. } => is_wanted(wanted, *part),
        _ => false,
    }
}

/// Whether one of some parts is wanted.
fn one_is_wanted(parts: &Parts, wanted: &[bool]) -> bool {
    for at in 0..parts.len() {
        if is_wanted(wanted, parts.get(at)) {
            return true;
        }
    }
    false
}
