ghost use Rattle.std.specs.Prelude.{◌≡◌, ◌<◌, ◌≤◌, OnOk, OnErr, IfOk, IfSome};
ghost use Rattle.csn_bits.specs.Numbers.{low_bits};
ghost use Rattle.csn_decode.specs.Built.{nothing, is_literal, has_bits, with_node, entered, took_all, bits_left, IsTree, Leaves, Grows, given};

use crate::open::{Inside, Open};
use csn_bits::{MOST_ADDED, NoMemory, PackedBits};
use csn_desc::{Move, Node, Shape, Tree};
use std::alloc::Global;
use std::marker::Model;

/// A tree that grows along the moves of a block.
#[derive(Drop)]
pub(crate) struct Builder {
    alloc: Global,
    /// The nodes that have begun and not ended, each inside the one before it.
    nodes: Vec<Open>,
    /// The bits of the innermost node, where it is a leaf.
    bits: PackedBits,
    /// The tree of the root, where it has ended.
    whole: Option<Tree>,
}

impl Model for Builder {
    ghost use Rattle.std.specs.Prelude.{reverse};
    ghost use Rattle.std.specs.Coded.{codes};
    ghost use Rattle.csn_desc.specs.TreeCode.{tree_code};
    ghost use Rattle.csn_decode.specs.Built.{BuiltV};

    ghost Value = { BuiltV };

    ghost coded = { Prim.hlevel (codes, tree_code) };

    ghost view = { λ b. record { nodes = reverse b.nodes.items; bits = b.bits; whole = b.whole } };
}

impl Builder {
    /// Nothing of a tree. It takes no memory.
    pub fn new(alloc: Global) -> Builder
        ensures { result ≡ nothing }
    {
        Builder {
            alloc,
            nodes: Vec::new(alloc),
            bits: PackedBits::new(alloc),
            whole: None,
        }
    }

    /// One move, with the node that begins, that takes the bit, or that ends.
    pub fn step(&mut self, step: Move, node: &Node) -> Result<(), NoMemory>
        ensures { OnOk result (Grows self.old step node.now self.new) }
    {
        match step {
            Move::Enter(number) => self.enter(number, node),
            Move::Bit(bit) if bit > 1 => Err(NoMemory),
            Move::Bit(bit) => self.take(u64::from(bit), 1, node),
            Move::Leave => self.leave(node),
        }
    }

    /// A node begins.
    fn enter(&mut self, number: u16, node: &Node) -> Result<(), NoMemory>
        ensures { OnOk result (self.new ≡ entered number node.now self.old) }
    {
        let begun = Open {
            node: number,
            inside: Inside::of(self.alloc, node),
        };
        Ok(self.nodes.push(begun)?)
    }

    /// The innermost node takes the last `count` bits of a number. Those of a literal are in no tree.
    pub fn take(&mut self, number: u64, count: u32, node: &Node) -> Result<(), NoMemory>
        requires { count ≤ MOST_ADDED }
        ensures ok { OnOk result (self.new ≡ took_all node.now (low_bits count number) self.old) }
        ensures some { OnErr result (0 < count) }
    {
        if !is_literal(node) {
            self.bits.add(number, count)?;
        }
        Ok(())
    }

    /// The innermost node ends.
    fn leave(&mut self, node: &Node) -> Result<(), NoMemory>
        ensures { OnOk result (Leaves node.now self.old self.new) }
    {
        let Some(
            Open {
                node: number,
                inside,
            },
        ) = self.pop()
        else {
            return Err(NoMemory);
        };
        let tree = self.tree_of(inside, node)?;
        self.give(number, tree)
    }

    /// The tree of a node that ends, from the trees of its parts or its bits.
    fn tree_of(&mut self, inside: Inside, node: &Node) -> Result<Tree, NoMemory>
        ensures tree { IfOk result (λ tree. IsTree node.now inside self.old.bits tree) }
        ensures behind { OnOk result (self.new ≡ bits_left node.now self.old) }
    {
        if !has_bits(node) {
            return inside.tree(self.alloc, node);
        }
        let shape = Shape::Bits(self.bits.take(self.alloc)?);
        Ok(Tree { shape })
    }

    /// The tree of a node that has ended goes to the node that it is in.
    fn give(&mut self, node: u16, tree: Tree) -> Result<(), NoMemory>
        ensures { OnOk result (self.new ≡ given node tree self.old) }
    {
        let Some(around) = self.nodes.pop() else {
            self.whole = Some(tree);
            return Ok(());
        };
        let around = around.with(node, tree)?;
        Ok(self.nodes.push(around)?)
    }

    /// The innermost node, which is no longer among the open ones.
    fn pop(&mut self) -> Option<Open>
        ensures { IfSome result (λ last. self.old ≡ with_node last self.new) }
    {
        self.nodes.pop()
    }

    /// The tree of the root, where it has ended.
    pub fn finish(self) -> Option<Tree>
        ensures { result ≡ self.whole }
    {
        self.whole
    }
}

// Is the node a literal?
fn is_literal(node: &Node) -> bool
    ensures { result ≡ is_literal node.now }
{
    matches!(node, Node::Lits(_))
}

// Is it a leaf whose bits are its tree?
fn has_bits(node: &Node) -> bool
    ensures { result ≡ has_bits node.now }
{
    matches!(
        node,
        Node::Spare(_) | Node::Pad | Node::Field { .. } | Node::Rest
    )
}
