ghost use Rattle.std.specs.Prelude.{◌≡◌, ℕ, suc, ◌<◌, ◌≤◌, ◌⊎◌, length, slice_get, [], Some, None, IsTrue};
ghost use Rattle.std.specs.FinSet as set;
ghost use Rattle.csn_desc.specs.Nodes.{DescV, parts_of};
ghost use Rattle.csn_look.specs.Told.{OctetsAre};
ghost use Rattle.csn_look.specs.Sums.{Has};
ghost use Rattle.csn_look.specs.NodeSets.{IsLookOf};
ghost use Rattle.csn_look.specs.Steps.{HandsTo, KeepsOthers};
ghost use Rattle.csn_look.specs.FollowV.{IsBehind, FollowsAre, HasFollows, HasFollowsInOrder, signs_at};

use crate::follow::Follow;
use crate::hand_down::{HandDown, hand_to_each};
use crate::look::Look;
use crate::node_sets::NodeSets;
use crate::octet_set::OctetSet;
use crate::symbol_set::{Sign, SymbolSet};
use csn_desc::{Node, Parts};

/// What may stand next where a node ends: the octet positions at which it may end before a 0, before a 1
/// and before the end.
#[derive(Clone, Copy, Debug)]
pub struct Following {
    pub zero: OctetSet,
    pub one: OctetSet,
    pub end: OctetSet,
}

impl Following {
    /// The end alone, at every octet position.
    pub fn end() -> Following
        ensures zero { result.zero ≡ set.empty }
        ensures one { result.one ≡ set.empty }
        ensures end { (o : ℕ) → o ≤ 7 → Has result.end o }
    {
        Following {
            zero: OctetSet::empty(),
            one: OctetSet::empty(),
            end: OctetSet::all(),
        }
    }

    /// What may stand next before the rest, and before what may follow the rest where it may have no bits.
    fn ahead_of(&self, rest: &NodeSets) -> Following
        ensures { IsBehind rest.now self.now result }
    {
        if rest.nullable {
            Following {
                zero: self.zero.union(rest.zero),
                one: self.one.union(rest.one),
                end: self.end,
            }
        } else {
            Following {
                zero: rest.zero,
                one: rest.one,
                end: OctetSet::empty(),
            }
        }
    }
}

/// What may follow a node tells what may follow its parts.
impl HandDown for Following {
    ghost is_right = { λ d i sets. FollowsAre d i sets };

    fn hand_down(look: &Look, node: &Node, above: Following, table: &mut [Following]) {
        follow_parts(look, node, above, table)
    }
}

/// What may follow the parts of a node, from what may follow the node.
fn follow_parts(look: &Look, node: &Node, above: Following, table: &mut [Following])
    requires { HandsTo node.now (length table.old) (length look.now.sets) }
    ensures follows { (d : DescV) (k : ℕ) → IsLookOf d look.now.sets → FollowsAre d k above → HasFollows d node.now k table.new }
    ensures others { KeepsOthers node.now table.old table.new }
{
    match node {
        Node::Seq(parts) => follow_in_order(look, parts, false, above, table),
        Node::Trunc(parts) => follow_in_order(look, parts, true, above, table),
        Node::Choice(parts) => hand_to_each(parts, above, table),
        Node::Times { count: _, part } => {
            let again = NodeSets {
                nullable: true,
                ..look.of(*part)
            };
            table[*part as usize] = above.ahead_of(&again);
        }
        Node::Many(part) => {
            let again = NodeSets {
                nullable: true,
                ..look.of(*part)
            };
            table[*part as usize] = above.ahead_of(&again);
        }
        Node::Window {
            unit: _,
            count: _,
            part,
        } => {
            table[*part as usize] = Following::end();
        }
        Node::Named { label: _, part } => {
            table[*part as usize] = above;
        }
        _ => {}
    }
}

/// What may follow parts one after another, of which the last may be left out where they may end early.
fn follow_in_order(
    look: &Look,
    parts: &Parts,
    ends_early: bool,
    above: Following,
    table: &mut [Following],
)
    requires { HandsTo (Node.Seq parts.now) (length table.old) (length look.now.sets) }
    ensures follows { (d : DescV) (k : ℕ) → IsLookOf d look.now.sets → FollowsAre d k above → HasFollowsInOrder d ends_early parts.now k table.new }
    ensures others { KeepsOthers (Node.Seq parts.now) table.old table.new }
{
    let mut rest = NodeSets::no_bits();
    for at in (0..parts.len()).rev() {
        let part = parts.get(at);
        let behind = NodeSets {
            nullable: rest.nullable | ends_early,
            ..rest
        };
        table[part as usize] = above.ahead_of(&behind);
        rest = look.of(part).then(&rest);
    }
}

/// The signs for each octet position.
pub(crate) fn signs_of(following: &Following) -> Follow
    ensures { (o : ℕ) → o ≤ 7 → slice_get result o ≡ Some (signs_at following.now o) }
{
    let mut at = [SymbolSet::empty(); 8];
    for octet in 0..8u8 {
        at[octet as usize] = SymbolSet::empty()
            .with_if(Sign::Zero, following.zero.has(octet))
            .with_if(Sign::One, following.one.has(octet))
            .with_if(Sign::End, following.end.has(octet));
    }
    Follow::new(at)
}
