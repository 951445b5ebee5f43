ghost use Rattle.std.specs.Prelude.{◌≡◌, ℕ, ◌<◌, ◌≤◌, IsTrue, false, List, length};
ghost use Rattle.csn_bits.specs.Numbers.{low_bits};
ghost use Rattle.csn_certify.specs.Layouts.{HasLayout};
ghost use Rattle.csn_judge.specs.Told.{BitsTold, WholeTold};

use crate::source::MOST_RUN;
use csn_certify::{Layout, Plan};
use csn_desc::{Move, Node};

/// What is told the moves of a block.
pub trait Track {
    ghost use Rattle.csn_desc.specs.declared.moves.Move.{Move as MoveV};
    ghost use Rattle.csn_desc.specs.declared.node.Node.{Node as NodeV};
    ghost use Rattle.csn_desc.specs.Nodes.{DescV};

    /// Which states one move with its node may make of a state.
    ghost takes: { Self → MoveV → NodeV → Self → Type 0 };

    /// What holds of a track that is told of blocks by a description, where it is made for one.
    ghost fits: { Self → DescV → Type 0 };

    /// It holds behind each move.
    ghost keeps: { (d : DescV) (old new : Self) (step : MoveV) (node : NodeV) → takes old step node new → fits old d → fits new d };

    /// One move, with the node that begins, that takes the bit, or that ends.
    fn step(&mut self, step: Move, node: &Node)
        ensures { takes self.old step node.now self.new };

    /// So many moves `Bit` of a node, of the bits that write the number.
    fn bits(&mut self, number: u64, count: u32, node: &Node)
        requires { count ≤ MOST_RUN }
        ensures { BitsTold takes node.now (low_bits count number) self.old self.new }
    {
        for at in 0..count {
            let bit = (number >> (count - 1 - at)) % 2;
            self.step(Move::Bit(bit as u8), node);
        }
    }

    /// Whether it is worth asking for all moves of a node at once.
    fn takes_whole(&self) -> bool {
        false
    }

    /// All moves of node `i` of a plan at once, for the bits that the number writes; or nothing, where the track takes
    /// them one by one.
    fn whole(&mut self, _plan: &Plan, _i: u16, _layout: Layout, _number: u64) -> bool
        requires node { _i < length _plan.now.nodes }
        requires layout { HasLayout _plan.now _i _layout }
        requires fits { fits self.old _plan.now }
        ensures told { IsTrue result → WholeTold _plan.now takes _i (low_bits _layout.width _number) self.old self.new }
        ensures untold { result ≡ false → self.new ≡ self.old }
    {
        false
    }
}

/// Drops the moves.
#[derive(Clone, Copy, Debug, PartialEq, Eq)]
pub struct NoTrack;

impl Track for NoTrack {
    ghost use Rattle.std.specs.Prelude.{⊤};

    ghost takes = { λ _ _ _ _. ⊤ };

    ghost fits = { λ _ _. ⊤ };

    ghost keeps = { λ _ _ _ _ _ _ _. tt };

    fn step(&mut self, _step: Move, _node: &Node) {}

    fn bits(&mut self, _number: u64, _count: u32, _node: &Node) {}

    fn takes_whole(&self) -> bool {
        true
    }

    fn whole(&mut self, _plan: &Plan, _i: u16, _layout: Layout, _number: u64) -> bool {
        true
    }
}
