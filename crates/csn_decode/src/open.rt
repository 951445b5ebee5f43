ghost use Rattle.std.specs.Prelude.{◌≡◌, ℕ, List, [], ◌∷◌, ◌++◌, slice_get, Some, IfOk};
ghost use Rattle.csn_desc.specs.TreeV.{alt, named};

use crate::alternative::place_of;
use csn_bits::NoMemory;
use csn_desc::{Label, MOST_TREES, Node, Parts, Rows, Shape, Tree};
use std::alloc::Global;

/// A node that has begun and not ended.
#[derive(Drop)]
pub(crate) struct Open {
    pub node: u16,
    pub inside: Inside,
}

/// The trees of an open node's parts that have ended.
#[derive(Drop)]
pub(crate) enum Inside {
    /// It has no parts.
    Leaf,
    /// Those of a row.
    Row(Rows),
    /// That of the only part, where it has ended.
    Part(Option<Ended>),
}

/// A part that has ended.
#[derive(Drop)]
pub(crate) struct Ended {
    pub node: u16,
    pub tree: Tree,
}

impl Open {
    ghost use Rattle.csn_decode.specs.Built.{with_part};

    /// With the tree of one more part.
    pub fn with(self, node: u16, tree: Tree) -> Result<Open, NoMemory>
        ensures { IfOk result (λ last. last ≡ record { node = self.node; inside = with_part node tree self.inside }) }
    {
        let inside = self.inside.with(node, tree)?;
        Ok(Open {
            node: self.node,
            inside,
        })
    }
}

impl Inside {
    ghost use Rattle.csn_decode.specs.Built.{begun, with_part, IsTree};
    ghost use Rattle.csn_decode.specs.declared.open.Inside.TheVariants as inside;

    /// Of a node that begins. It takes no memory.
    pub fn of(alloc: Global, node: &Node) -> Inside
        ensures { result ≡ begun node.now }
    {
        match node {
            Node::Lits(_)
            | Node::Spare(_)
            | Node::Pad
            | Node::Null
            | Node::Field { .. }
            | Node::Rest => Inside::Leaf,
            Node::Seq(_) | Node::Times { .. } | Node::Many(_) | Node::Trunc(_) => {
                Inside::Row(Rows::new(alloc))
            }
            Node::Choice(_) | Node::Window { .. } | Node::Named { .. } => Inside::Part(None),
        }
    }

    /// With the tree of one more part.
    pub fn with(self, node: u16, tree: Tree) -> Result<Inside, NoMemory>
        ensures { IfOk result (λ inside. inside ≡ with_part node tree self) }
    {
        match self {
            Inside::Leaf => Err(NoMemory),
            Inside::Row(rows) => Ok(Inside::Row(with_tree(rows, tree)?)),
            Inside::Part(_) => Ok(Inside::Part(Some(Ended { node, tree }))),
        }
    }

    /// The tree of a node that ends and is no leaf with bits.
    pub fn tree(self, alloc: Global, node: &Node) -> Result<Tree, NoMemory>
        ensures { IfOk result (λ tree. (bits : List ℕ) → IsTree node.now self bits tree) }
    {
        match node {
            Node::Lits(_) | Node::Null => Ok(Tree {
                shape: Shape::Empty,
            }),
            Node::Seq(_) | Node::Times { .. } | Node::Many(_) | Node::Trunc(_) => {
                let shape = Shape::Row(self.row()?);
                Ok(Tree { shape })
            }
            Node::Choice(parts) => alternative(alloc, parts, self.part()?),
            Node::Named { label, .. } => labelled(alloc, label, self.part()?),
            Node::Window { .. } => Ok(self.part()?.tree),
            Node::Spare(_) | Node::Pad | Node::Field { .. } | Node::Rest => Err(NoMemory),
        }
    }

    /// The trees of a row.
    fn row(self) -> Result<Rows, NoMemory>
        ensures { IfOk result (λ rows. self ≡ inside.Row rows) }
    {
        match self {
            Inside::Row(rows) => Ok(rows),
            _ => Err(NoMemory),
        }
    }

    /// The only part, which has ended.
    fn part(self) -> Result<Ended, NoMemory>
        ensures { IfOk result (λ part. self ≡ inside.Part (Some part)) }
    {
        match self {
            Inside::Part(Some(part)) => Ok(part),
            _ => Err(NoMemory),
        }
    }
}

// The trees of a row with one more.
fn with_tree(mut rows: Rows, tree: Tree) -> Result<Rows, NoMemory>
    ensures { IfOk result (λ more. more ≡ rows ++ tree ∷ []) }
{
    if rows.len() >= MOST_TREES || rows.push(tree).is_err() {
        return Err(NoMemory);
    }
    Ok(rows)
}

// The tree of a choice whose alternative has ended.
fn alternative(alloc: Global, parts: &Parts, part: Ended) -> Result<Tree, NoMemory>
    ensures { IfOk result (λ tree. (at : ℕ) × (slice_get parts.now at ≡ Some part.node) × (tree ≡ alt at part.tree)) }
{
    let Some(at) = place_of(parts, part.node) else {
        return Err(NoMemory);
    };
    let shape = Shape::Alt(at, Box::new(alloc, part.tree)?);
    Ok(Tree { shape })
}

// The tree of a label whose part has ended.
fn labelled(alloc: Global, label: &Label, part: Ended) -> Result<Tree, NoMemory>
    ensures { IfOk result (λ tree. tree ≡ named label.now part.tree) }
{
    let label = label.copy(alloc)?;
    let shape = Shape::Named(label, Box::new(alloc, part.tree)?);
    Ok(Tree { shape })
}
