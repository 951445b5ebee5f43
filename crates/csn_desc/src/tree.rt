use crate::label::Label;
use crate::listed::Listed;
use csn_bits::Bits;
use std::marker::Model;

/// The most trees that a row holds.
pub const MOST_TREES: u32 = 16_777_216;

/// What the bits of a block say: the values that stand in them, nested as the description nests its
/// parts. A contract sees it as plain data.
#[cycle(tree)]
#[derive(Drop)]
pub struct Tree {
    pub shape: Shape,
}

/// The kinds of tree.
#[cycle(tree)]
#[derive(Drop)]
pub enum Shape {
    /// Nothing to tell, as of a literal.
    Empty,
    /// The bits of a field or of a spare part.
    Bits(Bits),
    /// One tree for each part.
    Row(Rows),
    /// The number of an alternative, from 0, and its tree.
    Alt(u16, Box<Tree>),
    /// The label of a labelled part, and its tree.
    Named(Label, Box<Tree>),
}

/// The trees of a row, in the order of the parts.
pub type Rows = Listed<Tree, MOST_TREES>;

impl Model for Tree {
    ghost use Rattle.csn_desc.specs.TreeV.{TreeV};
    ghost use Rattle.csn_desc.specs.TreeCode.{tree_code, tree_size};
    ghost use Rattle.std.proofs.Common.{arith};

    ghost Value = { TreeV };

    ghost coded = { tree_code };

    ghost use Rattle.csn_desc.specs.ShapeView.{shape_view};

    ghost view = { λ t. shape_view t.shape };

    ghost size = { tree_size };

    ghost use Rattle.csn_desc.specs.TreeFalls.{deep_le-tree_size};

    ghost size_decreases = { λ a h. omega (arith, deep_le-tree_size a.shape) };
}
