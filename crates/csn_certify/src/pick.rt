//! What look-ahead answers, from the keys of alternatives and from what a repetition's part begins with.

ghost use Rattle.std.specs.Prelude.{◌≡◌, ℕ, List, ◌<◌, ◌≤◌, ◌↔◌, ◌&&◌, not, if◌then◌else◌, length, slice_get, Some, IsTrue};
ghost use Rattle.csn_look.specs.Starts.{InStart};
ghost use Rattle.csn_look.specs.Reached.{Reached};
ghost use Rattle.csn_certify.specs.Plans.{IsReady};
ghost use Rattle.csn_certify.specs.Picks.{IsAsked, StandsBehind, Picks};
ghost use Rattle.csn_look.specs.Signs.{bit_of_sign};
ghost use Rattle.csn_certify.specs.Choosing.{AreWithoutKey};

use crate::pick_table::Entry;
use crate::pick_tables::PickTables;
use csn_desc::{Desc, Node};
use csn_look::{Look, MOST_WORD, Reach, Sign, Word};

/// What look-ahead answers at a choice or at a repetition.
#[derive(Clone, Copy, Debug, PartialEq, Eq, Hash)]
pub enum Pick {
    /// Read this alternative of the choice, or, as 0, the part of the repetition.
    Take(u16),
    /// End the repetition.
    Leave,
    /// More bits are needed.
    Wait,
    /// No alternative has these bits.
    Refuse,
}

/// What look-ahead is asked at: an octet position, the bits that are held there, and whether the block has
/// ended behind them.
#[derive(Clone, Copy)]
pub(crate) struct Asked<'a> {
    pub desc: &'a Desc,
    pub look: &'a Look,
    pub reach: &'a Reach,
    pub picks: &'a PickTables,
    pub octet: u8,
    pub held: &'a Word,
    pub ended: bool,
}

impl Asked<'_> {
    /// What is answered at a node.
    pub fn pick(&self, node: u16) -> Pick
        requires ready { IsReady self.now.desc.now self.now.look.now self.now.reach.now self.now.picks.now self.now.octet self.now.held.now }
        requires node { node < length self.now.desc.now.nodes }
        requires asked { IsAsked self.now.desc.now node self.now.octet }
        ensures { Picks self.now.desc.now MOST_WORD node self.now.octet self.now.held.now self.now.ended result }
    {
        match self.desc.node(node) {
            Node::Choice(_) => self.choice(node),
            Node::Many(part) => self.many(*part),
            _ => Pick::Refuse,
        }
    }

    /// What is answered at a choice.
    fn choice(&self, node: u16) -> Pick
        requires ready { IsReady self.now.desc.now self.now.look.now self.now.reach.now self.now.picks.now self.now.octet self.now.held.now }
        requires node { node < length self.now.desc.now.nodes }
        requires choice { (parts : List ℕ) × (slice_get self.now.desc.now.nodes node ≡ Some (Node.Choice parts)) }
        requires reached { Reached self.now.desc.now node self.now.octet }
        ensures { Picks self.now.desc.now MOST_WORD node self.now.octet self.now.held.now self.now.ended result }
    {
        let table = self.picks.table(node, self.octet);
        match table.entry(self.held) {
            Entry::Refuse => self.without_key(node, table.none(), false),
            Entry::Wait => self.without_key(node, table.none(), true),
            Entry::Take { bits, alternative } => {
                if bits <= self.held.len() {
                    Pick::Take(alternative)
                } else {
                    self.without_key(node, table.none(), true)
                }
            }
        }
    }

    /// What is answered at a choice where the held bits begin with no key.
    fn without_key(&self, node: u16, none: Option<u16>, begun: bool) -> Pick
        requires ready { IsReady self.now.desc.now self.now.look.now self.now.reach.now self.now.picks.now self.now.octet self.now.held.now }
        requires node { node < length self.now.desc.now.nodes }
        ensures { (parts : List ℕ) → slice_get self.now.desc.now.nodes node ≡ Some (Node.Choice parts)
            → AreWithoutKey self.now.desc.now parts self.now.octet self.now.held.now none begun
            → Picks self.now.desc.now MOST_WORD node self.now.octet self.now.held.now self.now.ended result }
    {
        match none {
            Some(i) => {
                if self.stands_behind(node) {
                    Pick::Take(i)
                } else {
                    self.untaken(begun)
                }
            }
            None => self.untaken(begun),
        }
    }

    /// What is answered at a choice where no alternative is taken.
    fn untaken(&self, begun: bool) -> Pick
        ensures { result ≡ (if begun && not self.now.ended then Pick.Wait else Pick.Refuse) }
    {
        if begun & !self.ended {
            Pick::Wait
        } else {
            Pick::Refuse
        }
    }

    /// Whether what may follow a node stands next.
    fn stands_behind(&self, node: u16) -> bool
        requires ready { IsReady self.now.desc.now self.now.look.now self.now.reach.now self.now.picks.now self.now.octet self.now.held.now }
        requires node { node < length self.now.desc.now.nodes }
        ensures { IsTrue result ↔ StandsBehind self.now.desc.now MOST_WORD node self.now.octet self.now.held.now self.now.ended }
    {
        if self.held.len() == 0 {
            self.ended
        } else {
            let first = sign_of(self.held.get(0));
            self.reach.may_follow(node, self.octet, first)
        }
    }

    /// What is answered at a free repetition of a part.
    fn many(&self, part: u16) -> Pick
        requires ready { IsReady self.now.desc.now self.now.look.now self.now.reach.now self.now.picks.now self.now.octet self.now.held.now }
        requires part { part < length self.now.desc.now.nodes }
        ensures { (node : ℕ) → slice_get self.now.desc.now.nodes node ≡ Some (Node.Many part)
            → Picks self.now.desc.now MOST_WORD node self.now.octet self.now.held.now self.now.ended result }
    {
        if self.held.len() == 0 {
            if self.ended { Pick::Leave } else { Pick::Wait }
        } else if self.starts(part, self.held.get(0)) {
            Pick::Take(0)
        } else {
            Pick::Leave
        }
    }

    /// Whether a node may begin with the bit.
    fn starts(&self, node: u16, bit: u8) -> bool
        requires ready { IsReady self.now.desc.now self.now.look.now self.now.reach.now self.now.picks.now self.now.octet self.now.held.now }
        requires node { node < length self.now.desc.now.nodes }
        requires bit { bit ≤ 1 }
        ensures { IsTrue result ↔ InStart self.now.desc.now node self.now.octet bit }
    {
        self.look.starts(node, self.octet, sign_of(bit))
    }
}

/// The sign that stands for a bit.
fn sign_of(bit: u8) -> Sign
    requires { bit ≤ 1 }
    ensures { bit_of_sign result ≡ Some bit }
{
    if bit == 0 { Sign::Zero } else { Sign::One }
}
