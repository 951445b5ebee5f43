//! The search for the first conflict of a description, node by node.

ghost use Rattle.std.specs.Prelude.{◌≡◌, ◌<◌, [], ◌∷◌, length, IfOk};
ghost use Rattle.csn_look.specs.NodeSets.{IsLookOf};
ghost use Rattle.csn_look.specs.LookKeys.{IsKeysOf};
ghost use Rattle.csn_look.specs.ReachV.{IsReachOf};
ghost use Rattle.csn_look.specs.FollowV.{IsFollowOf};
ghost use Rattle.csn_certify.specs.Search.{IsSurveyed, IsFirstUnder, IsFirstOrNone};

use crate::conflict::Conflict;
use csn_bits::NoMemory;
use csn_desc::{Desc, Node};
use csn_look::{Look, Reach};
use std::alloc::Global;

/// What a search tells where memory suffices: the first conflict, if there is one.
pub(crate) type Found = Result<Option<Conflict>, NoMemory>;

/// A description and the tables of what is known of its nodes.
#[derive(Clone, Copy)]
pub(crate) struct Search<'a> {
    pub desc: &'a Desc,
    pub look: &'a Look,
    pub reach: &'a Reach,
}

/// The first conflict of a description; where there is none, it is certified.
pub(crate) fn first_conflict(alloc: Global, desc: &Desc, look: &Look, reach: &Reach) -> Found
    requires sets { IsLookOf desc.now look.now.sets }
    requires keys { IsKeysOf desc.now look.now }
    requires reached { IsReachOf desc.now reach.now.reached }
    requires follow { IsFollowOf desc.now reach.now.follow }
    ensures { IfOk result (IsFirstOrNone desc.now) }
{
    let search = Search { desc, look, reach };
    search.of_nodes(alloc, desc.len())
}

impl Search<'_> {
    /// The first conflict of the nodes, of which there are so many.
    fn of_nodes(&self, alloc: Global, count: u16) -> Found
        requires known { IsSurveyed self.now.desc.now self.now.look.now self.now.reach.now }
        requires count { count ≡ length self.now.desc.now.nodes }
        ensures { IfOk result (IsFirstUnder self.now.desc.now []) }
    {
        for node in 0..count {
            if let Some(conflict) = self.of_node(alloc, node)? {
                return Ok(Some(conflict));
            }
        }
        Ok(None)
    }

    /// The first conflict of a node.
    fn of_node(&self, alloc: Global, node: u16) -> Found
        requires known { IsSurveyed self.now.desc.now self.now.look.now self.now.reach.now }
        requires node { node < length self.now.desc.now.nodes }
        ensures { IfOk result (IsFirstUnder self.now.desc.now (node ∷ [])) }
    {
        match self.desc.node(node) {
            Node::Choice(parts) => self.of_choice(alloc, node, parts),
            Node::Times { count: _, part } => Ok(self.of_times(node, *part)),
            Node::Many(part) => Ok(self.of_many(node, *part)),
            Node::Rest => Ok(self.of_last(node)),
            Node::Pad => Ok(self.of_last(node)),
            Node::Trunc(_) => Ok(self.of_last(node)),
            Node::Lits(_) => Ok(None),
            Node::Spare(_) => Ok(None),
            Node::Null => Ok(None),
            Node::Field { unit: _, count: _ } => Ok(None),
            Node::Seq(_) => Ok(None),
            Node::Window {
                unit: _,
                count: _,
                part: _,
            } => Ok(None),
            Node::Named { label: _, part: _ } => Ok(None),
        }
    }
}
