//! The ways that the tree of a block goes are marked.

ghost use Rattle.std.specs.Prelude.{◌≡◌, ◌<◌, ℕ, Some, slice_get};
ghost use Rattle.csn_desc.specs.Nodes.{parts_of};
ghost use Rattle.csn_desc.specs.declared.node.Node.TheVariants.{Seq, Choice, Many};
ghost use Rattle.csn_sample.specs.Covering.{HasMarks, HasRoom, MeetsInside, Sets, marks_at};
ghost use Rattle.csn_sample.specs.Ways.{GoesOne, Meets, ways};

use crate::covering::Way;
use crate::marks::WayMarks;
use crate::shapes::{alternative_of, labelled, rows_of};
use crate::way_numbers::way_gone;
use csn_certify::{Plan, Steps};
use csn_desc::{MOST_DEPTH, Node, Parts, Rows, Tree};
use std::sync::ledger::{Blank, Ledger};

impl WayMarks {
    /// Sets the marks of the ways that the tree of a block goes, and tells one that is new, if there is one.
    pub fn add_tree<L: Ledger>(&mut self, plan: &Plan, tree: &Tree, blank: Blank) -> Option<Way>
        requires name { blank.name ≡ L.name }
        requires parts { blank.parts ≡ L.parts }
        requires some { 0 < blank.parts }
        requires marks { HasMarks plan.now self.old }
        ensures { Sets self.old self.new (Meets plan.now 0 tree.now) result }
    {
        // its length tells that it is well formed
        let _count = plan.len();
        let mut steps = Steps::<L>::new(blank);
        self.add(plan, 0, MOST_DEPTH as u8, tree, &mut steps)
    }

    /// Those of a tree at node `i`, which is, with what is inside it, at most so many nodes deep.
    #[cycle(add)]
    fn add<L: Ledger>(
        &mut self,
        plan: &Plan,
        i: u16,
        deep: u8,
        tree: &Tree,
        steps: &mut Steps<L>,
    ) -> Option<Way>
        requires marks { HasMarks plan.now self.old }
        requires room { HasRoom plan.now deep i }
        ensures { Sets self.old self.new (Meets plan.now i tree.now) result }
    {
        let node = plan.node(i, steps);
        let here = self.add_way(i, node, tree);
        let inside = self.add_inside(plan, node, deep - 1, tree, steps);
        here.or(inside)
    }

    /// That of the way that a tree goes at its node.
    fn add_way(&mut self, i: u16, node: &Node, tree: &Tree) -> Option<Way>
        requires { marks_at self.old i ≡ ways node.now }
        ensures { Sets self.old self.new (λ j way. (j ≡ i) × GoesOne node.now tree.now way) result }
    {
        match way_gone(node, tree) {
            Some(way) => self.set(i, way),
            None => None,
        }
    }

    /// Those of the trees inside a tree at a node.
    #[cycle(add)]
    fn add_inside<L: Ledger>(
        &mut self,
        plan: &Plan,
        node: &Node,
        deep: u8,
        tree: &Tree,
        steps: &mut Steps<L>,
    ) -> Option<Way>
        requires marks { HasMarks plan.now self.old }
        requires room { (k part : ℕ) → slice_get (parts_of node.now) k ≡ Some part → HasRoom plan.now deep part }
        ensures { Sets self.old self.new (MeetsInside plan.now node.now tree.now) result }
    {
        match node {
            Node::Choice(parts) => self.add_alternative(plan, parts, deep, tree, steps),
            Node::Seq(parts) => self.add_row(plan, parts, deep, tree, steps),
            Node::Trunc(parts) => self.add_row(plan, parts, deep, tree, steps),
            Node::Times { part, .. } => self.add_turns(plan, *part, deep, tree, steps),
            Node::Many(part) => self.add_turns(plan, *part, deep, tree, steps),
            Node::Window { part, .. } => self.add(plan, *part, deep, tree, steps),
            Node::Named { part, .. } => match labelled(tree) {
                Some(inside) => self.add(plan, *part, deep, inside, steps),
                None => None,
            },
            Node::Lits(_) => None,
            Node::Spare(_) => None,
            Node::Pad => None,
            Node::Null => None,
            Node::Field { .. } => None,
            Node::Rest => None,
        }
    }

    /// Those of the tree of an alternative.
    #[cycle(add)]
    fn add_alternative<L: Ledger>(
        &mut self,
        plan: &Plan,
        parts: &Parts,
        deep: u8,
        tree: &Tree,
        steps: &mut Steps<L>,
    ) -> Option<Way>
        requires marks { HasMarks plan.now self.old }
        requires room { (k part : ℕ) → slice_get parts.now k ≡ Some part → HasRoom plan.now deep part }
        ensures { Sets self.old self.new (MeetsInside plan.now (Choice parts.now) tree.now) result }
    {
        match alternative_of(tree) {
            Some((at, inside)) if at < parts.len() => {
                self.add(plan, parts.get(at), deep, inside, steps)
            }
            Some(_) => None,
            None => None,
        }
    }

    /// Those of the trees in a row, one for each of the first parts.
    #[cycle(add)]
    fn add_row<L: Ledger>(
        &mut self,
        plan: &Plan,
        parts: &Parts,
        deep: u8,
        tree: &Tree,
        steps: &mut Steps<L>,
    ) -> Option<Way>
        requires marks { HasMarks plan.now self.old }
        requires room { (k part : ℕ) → slice_get parts.now k ≡ Some part → HasRoom plan.now deep part }
        ensures { Sets self.old self.new (MeetsInside plan.now (Seq parts.now) tree.now) result }
    {
        let Some(rows) = rows_of(tree) else {
            return None;
        };
        let mut first = None;
        for at in 0..rows.len().min(u32::from(parts.len())) {
            let part = parts.get(at as u16);
            let next = self.add(plan, part, deep, rows.get(at), steps);
            first = first.or(next);
        }
        first
    }

    /// Those of the trees in a row, each of which is of the same part.
    #[cycle(add)]
    fn add_turns<L: Ledger>(
        &mut self,
        plan: &Plan,
        part: u16,
        deep: u8,
        tree: &Tree,
        steps: &mut Steps<L>,
    ) -> Option<Way>
        requires marks { HasMarks plan.now self.old }
        requires room { HasRoom plan.now deep part }
        ensures { Sets self.old self.new (MeetsInside plan.now (Many part) tree.now) result }
    {
        let Some(rows) = rows_of(tree) else {
            return None;
        };
        let mut first = None;
        for at in 0..rows.len() {
            let next = self.add(plan, part, deep, rows.get(at), steps);
            first = first.or(next);
        }
        first
    }
}
