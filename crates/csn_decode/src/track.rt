use crate::builder::Builder;
use csn_desc::{Move, Node, Tree};
use csn_judge::Track;
use std::alloc::Global;
use std::marker::Model;

/// Grows the tree of a block along its moves, while there is memory.
#[derive(Drop)]
pub(crate) struct TreeTrack {
    builder: Builder,
    refused: bool,
}

impl Model for TreeTrack {
    ghost use Rattle.std.specs.Prelude.{Option};
    ghost use Rattle.std.specs.Coded.{codes};
    ghost use Rattle.csn_desc.specs.TreeCode.{tree_code};
    ghost use Rattle.csn_decode.specs.Built.{BuiltV, unless};

    ghost Value = { Option BuiltV };

    ghost coded = { Prim.hlevel (codes, tree_code) };

    ghost view = { λ t. unless t.refused t.builder };
}

impl TreeTrack {
    ghost use Rattle.std.specs.Prelude.{◌≡◌, Some, None, is_none};
    ghost use Rattle.csn_decode.specs.Built.{nothing, whole_of};

    /// Nothing of a tree. It takes no memory.
    pub fn new(alloc: Global) -> TreeTrack
        ensures { result ≡ Some nothing }
    {
        TreeTrack {
            builder: Builder::new(alloc),
            refused: false,
        }
    }

    /// Whether memory was refused.
    pub fn is_refused(&self) -> bool
        ensures { result ≡ is_none self.now }
    {
        self.refused
    }

    /// The tree of the root, where it has ended and no memory was refused.
    pub fn finish(self) -> Option<Tree>
        ensures { result ≡ whole_of self }
    {
        if self.refused {
            return None;
        }
        self.builder.finish()
    }
}

impl Track for TreeTrack {
    ghost use Rattle.std.specs.Prelude.{⊤};
    ghost use Rattle.csn_decode.specs.Built.{Makes};

    ghost takes = { Makes };

    ghost fits = { λ _ _. ⊤ };

    ghost keeps = { λ _ _ _ _ _ _ _. tt };

    fn step(&mut self, step: Move, node: &Node) {
        if !self.refused {
            self.refused = self.builder.step(step, node).is_err();
        }
    }

    fn bits(&mut self, number: u64, count: u32, node: &Node) {
        if !self.refused {
            self.refused = self.builder.take(number, count, node).is_err();
        }
    }
}
