ghost use Rattle.std.specs.Prelude.{◌≡◌, ◌+◌, ◌<◌, ◌≤◌, length, slice_get, Some, IfSome};
ghost use Rattle.csn_certify.specs.Conflicts.{Certified};
ghost use Rattle.csn_certify.specs.Picks.{IsAsked, Picks};
ghost use Rattle.csn_certify.specs.PickTables.{ArePickTables};
ghost use Rattle.csn_certify.specs.Layouts.{HasLayout, AreLayouts};
ghost use Rattle.csn_certify.specs.Plans.{HasOneTree};
ghost use Rattle.csn_desc.specs.Formed.{IsDescription, is_counted};
ghost use Rattle.csn_look.specs.NodeSets.{IsLookOf};
ghost use Rattle.csn_look.specs.LookKeys.{IsKeysOf};
ghost use Rattle.csn_look.specs.ReachV.{IsReachOf};
ghost use Rattle.csn_look.specs.FollowV.{IsFollowOf};

use crate::laws::blocks_have_one_tree;
use crate::layouts::Layout;
use crate::pick::{Asked, Pick};
use crate::pick_tables::PickTables;
use crate::steps::Steps;
use csn_desc::{Desc, MOST_NODES, Node, Reading};
use csn_look::{Look, MOST_WORD, Reach, Word};
use std::marker::Model;
use std::sync::ledger::Ledger;

/// A certified description, by which blocks are read. A contract sees the description; nodes are told by
/// counted calls alone.
#[derive(Drop)]
pub struct Plan {
    desc: Desc,
    look: Look,
    reach: Reach,
    picks: PickTables,
    layouts: Vec<Option<Layout>>,
}

impl Model for Plan {
    ghost use Rattle.csn_desc.specs.Nodes.{DescV};
    ghost use Rattle.csn_certify.specs.Plans.{IsPlan};
    ghost use Rattle.csn_certify.specs.Layouts.{AreLayouts};

    ghost Value = { DescV };

    ghost view = { λ p. p.desc };

    ghost invariant = { λ p. IsPlan p.desc p.look p.reach p.picks × AreLayouts p.desc p.layouts.items };
}

impl Plan {
    /// The plan of a certified description, with the tables that look-ahead has of it.
    pub(crate) fn new(
        desc: Desc,
        look: Look,
        reach: Reach,
        picks: PickTables,
        layouts: Vec<Option<Layout>>,
    ) -> Plan
        requires certified { Certified desc MOST_WORD }
        requires sets { IsLookOf desc look.sets }
        requires keys { IsKeysOf desc look }
        requires reached { IsReachOf desc reach.reached }
        requires follow { IsFollowOf desc reach.follow }
        requires picks { ArePickTables desc picks }
        requires layouts { AreLayouts desc layouts.items }
        ensures plan { result ≡ desc }
        ensures one_tree { HasOneTree desc }
    {
        blocks_have_one_tree();
        // its length tells that it is well formed
        let _count = desc.len();
        Plan {
            desc,
            look,
            reach,
            picks,
            layouts,
        }
    }

    /// How many nodes the description has. It is certified, so any bits have at most one tree.
    pub fn len(&self) -> u16
        ensures len { result ≡ length self.now.nodes }
        ensures bound { result ≤ MOST_NODES }
        ensures description { IsDescription self.now }
        ensures certified { Certified self.now MOST_WORD }
        ensures one_tree { HasOneTree self.now }
    {
        blocks_have_one_tree();
        self.desc.len()
    }

    /// The reading that the description is in.
    pub fn reading(&self) -> Reading
        ensures { result ≡ self.now.reading }
    {
        self.desc.reading()
    }

    /// Whether some count stands on the field whose label is node `i`.
    pub fn counts(&self, i: u16) -> bool
        requires { i < length self.now.nodes }
        ensures { result ≡ is_counted self.now.nodes i }
    {
        self.desc.counts(i)
    }

    /// The layout of node `i`, where its strings have as many bits each, at most 56.
    #[inline(always)]
    pub fn layout(&self, i: u16) -> Option<Layout>
        requires { i < length self.now.nodes }
        ensures { IfSome result (HasLayout self.now i) }
    {
        self.layouts[usize::from(i)]
    }

    /// The description again.
    pub fn into_desc(self) -> Desc
        ensures desc { result ≡ self }
        ensures certified { Certified result MOST_WORD }
    {
        let Plan {
            desc,
            look: _,
            reach: _,
            picks: _,
            layouts: _,
        } = self;
        desc
    }

    /// The node with the number `i`; the root is 0. It takes one step.
    pub fn node<L: Ledger>(&self, i: u16, steps: &mut Steps<L>) -> &Node
        requires { i < length self.now.nodes }
        ensures node { slice_get self.now.nodes i ≡ Some result.now }
        ensures step { steps.new ≡ steps.old + 1 }
    {
        steps.tick();
        self.desc.node(i)
    }

    /// What look-ahead answers at node `i`, a choice or a free repetition, at an octet position from 0 to 7,
    /// where these bits are held, and the block has ended behind them or goes on. It takes one step.
    pub fn pick<L: Ledger>(
        &self,
        i: u16,
        octet: u8,
        held: &Word,
        ended: bool,
        steps: &mut Steps<L>,
    ) -> Pick
        requires node { i < length self.now.nodes }
        requires octet { octet ≤ 7 }
        requires asked { IsAsked self.now i octet }
        ensures pick { Picks self.now MOST_WORD i octet held.now ended result }
        ensures step { steps.new ≡ steps.old + 1 }
    {
        steps.tick();
        // its length tells that the held bits are a word
        let _count = held.len();
        let asked = Asked {
            desc: &self.desc,
            look: &self.look,
            reach: &self.reach,
            picks: &self.picks,
            octet,
            held,
            ended,
        };
        asked.pick(i)
    }
}
