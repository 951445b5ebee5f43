ghost use Rattle.std.specs.Prelude.{◌≡◌, ℕ, ◌<◌, ◌≤◌, ◌↔◌, length, slice_get, slice_set, [], Some, IsTrue, IfOk};
ghost use Rattle.csn_look.specs.Signs.{bit_of_sign};
ghost use Rattle.csn_desc.specs.Nodes.{DescV, parts_of};
ghost use Rattle.csn_look.specs.Ends.{PartsEnd};
ghost use Rattle.csn_look.specs.Told.{OctetsAre};
ghost use Rattle.csn_look.specs.NodeSets.{LengthsAre, IsLookOf};
ghost use Rattle.csn_look.specs.Reached.{Reached, PartReached, InFollow};
ghost use Rattle.csn_look.specs.ReachV.{IsReachOf};
ghost use Rattle.csn_look.specs.FollowV.{IsFollow, IsFollowOf};
ghost use Rattle.csn_look.specs.Steps.{HasSteps, HandsTo, KeepsOthers};

use crate::follow::Follow;
use crate::following::{Following, signs_of};
use crate::hand_down::{HandDown, hand_to_each, handed_down};
use crate::look::Look;
use crate::octet_set::OctetSet;
use crate::symbol_set::Sign;
use csn_bits::NoMemory;
use csn_desc::{Count, Desc, Node, Parts};
use std::alloc::Global;
use std::marker::Model;

/// Where the nodes of a description are reached, from its root on, and what may follow them, in tables that
/// are made once. A contract sees the octet positions for each node, and `IsReachOf` and `IsFollowOf` say
/// that they are those of a description.
#[derive(Drop)]
pub struct Reach {
    reached: Vec<OctetSet>,
    follow: Vec<Following>,
}

impl Model for Reach {
    ghost use Rattle.csn_look.specs.ReachV.{ReachV, reach_code};

    ghost Value = { ReachV };

    ghost coded = { reach_code };

    ghost view = { λ r. record { reached = r.reached.items; follow = r.follow.items } };
}

impl Reach {
    /// Where the nodes of a description are reached, and what may follow them.
    pub fn new(alloc: Global, desc: &Desc, look: &Look) -> Result<Reach, NoMemory>
        requires { IsLookOf desc.now look.now.sets }
        ensures reached { IfOk result (λ reach. IsReachOf desc.now reach.reached) }
        ensures follow { IfOk result (λ reach. IsFollowOf desc.now reach.follow) }
    {
        let reached = handed_down(alloc, desc, look, OctetSet::empty().with(0))?;
        let follow = handed_down(alloc, desc, look, Following::end())?;
        Ok(Reach { reached, follow })
    }

    /// The octet positions at which a node is reached.
    pub fn reached(&self, node: u16) -> OctetSet
        requires { node < length self.now.reached }
        ensures { (d : DescV) → IsReachOf d self.now.reached → OctetsAre result (Reached d node) }
    {
        self.reached[node as usize]
    }

    /// What may stand after a node, for each octet position at which it may end.
    pub fn follow(&self, node: u16) -> Follow
        requires { node < length self.now.follow }
        ensures { (d : DescV) → IsFollowOf d self.now.follow → IsFollow result (InFollow d node) }
    {
        signs_of(&self.follow[node as usize])
    }

    /// Whether this sign may stand after a node that ends at an octet position, which is from 0 to 7.
    pub fn may_follow(&self, node: u16, octet: u8, sign: Sign) -> bool
        requires node { node < length self.now.follow }
        requires octet { octet ≤ 7 }
        ensures { (d : DescV) → IsFollowOf d self.now.follow → IsTrue result ↔ InFollow d node octet (bit_of_sign sign) }
    {
        let following = self.follow[node as usize];
        match sign {
            Sign::Zero => following.zero.has(octet),
            Sign::One => following.one.has(octet),
            Sign::End => following.end.has(octet),
        }
    }
}

/// Where a node is reached tells where its parts are.
impl HandDown for OctetSet {
    ghost is_right = { λ d i octets. OctetsAre octets (Reached d i) };

    fn hand_down(look: &Look, node: &Node, above: OctetSet, table: &mut [OctetSet]) {
        reach_parts(look, node, above, table)
    }
}

/// Where the parts of a node are reached that is reached from these octet positions.
fn reach_parts(look: &Look, node: &Node, from: OctetSet, reached: &mut [OctetSet])
    requires { HandsTo node.now (length reached.old) (length look.now.sets) }
    ensures steps { (d : DescV) → IsLookOf d look.now.sets → HasSteps d node.now from reached.new }
    ensures others { KeepsOthers node.now reached.old reached.new }
{
    match node {
        Node::Seq(parts) => reach_in_order(look, parts, from, reached),
        Node::Trunc(parts) => reach_in_order(look, parts, from, reached),
        Node::Choice(parts) => hand_to_each(parts, from, reached),
        Node::Times { count, part } => {
            reached[*part as usize] = from.plus(before_last(look, *count, *part));
        }
        Node::Many(part) => {
            reached[*part as usize] = from.plus(look.lengths(*part).repeated());
        }
        Node::Window {
            unit: _,
            count: _,
            part,
        } => {
            reached[*part as usize] = from;
        }
        Node::Named { label: _, part } => {
            reached[*part as usize] = from;
        }
        _ => {}
    }
}

/// Where parts one after another are reached.
fn reach_in_order(look: &Look, parts: &Parts, from: OctetSet, reached: &mut [OctetSet])
    requires { HandsTo (Node.Seq parts.now) (length reached.old) (length look.now.sets) }
    ensures steps { (d : DescV) → IsLookOf d look.now.sets → HasSteps d (Node.Seq parts.now) from reached.new }
    ensures others { KeepsOthers (Node.Seq parts.now) reached.old reached.new }
{
    let mut here = from;
    for at in 0..parts.len() {
        let part = parts.get(at);
        reached[part as usize] = here;
        here = here.plus(look.lengths(part));
    }
}

/// How many bits, modulo 8, there may be of a repetition before it begins its part once more.
fn before_last(look: &Look, count: Count, part: u16) -> OctetSet
    requires { part < length look.now.sets }
    ensures { (d : DescV) → IsLookOf d look.now.sets → LengthsAre result (PartReached d (Node.Times count part) [] part) }
{
    let once = look.lengths(part);
    match count {
        Count::Fixed(n) => {
            if n == 0 {
                OctetSet::empty()
            } else {
                once.with(0).times(n - 1)
            }
        }
        Count::Counted {
            m: _,
            field: _,
            c: _,
        } => once.repeated(),
    }
}
