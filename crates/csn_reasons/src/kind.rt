ghost use Rattle.std.specs.Prelude.{◌≡◌};
ghost use Rattle.csn_reasons.specs.Kinds.{kind_of, kind_word};

use csn_desc::Node;

/// The kinds of node, as they are told.
#[derive(Clone, Copy, Debug, PartialEq, Eq)]
pub enum NodeKind {
    Literal,
    Spare,
    Padding,
    Null,
    Field,
    Rest,
    Sequence,
    Choice,
    Repetition,
    Truncation,
    Window,
    Label,
}

impl NodeKind {
    /// What a node is.
    pub(crate) fn of(node: &Node) -> NodeKind
        ensures { result ≡ kind_of node.now }
    {
        match node {
            Node::Lits(_) => NodeKind::Literal,
            Node::Spare(_) => NodeKind::Spare,
            Node::Pad => NodeKind::Padding,
            Node::Null => NodeKind::Null,
            Node::Field { .. } => NodeKind::Field,
            Node::Rest => NodeKind::Rest,
            Node::Seq(_) => NodeKind::Sequence,
            Node::Choice(_) => NodeKind::Choice,
            Node::Times { .. } => NodeKind::Repetition,
            Node::Many(_) => NodeKind::Repetition,
            Node::Trunc(_) => NodeKind::Truncation,
            Node::Window { .. } => NodeKind::Window,
            Node::Named { .. } => NodeKind::Label,
        }
    }

    /// The word for it.
    pub fn name(self) -> &'static str
        ensures { result.now ≡ kind_word self }
    {
        match self {
            NodeKind::Literal => "literal",
            NodeKind::Spare => "spare",
            NodeKind::Padding => "padding",
            NodeKind::Null => "null",
            NodeKind::Field => "field",
            NodeKind::Rest => "rest",
            NodeKind::Sequence => "sequence",
            NodeKind::Choice => "choice",
            NodeKind::Repetition => "repetition",
            NodeKind::Truncation => "truncation",
            NodeKind::Window => "window",
            NodeKind::Label => "label",
        }
    }
}
