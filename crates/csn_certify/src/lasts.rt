//! Conflicts of what ends with what is read: a rest, padding and a truncation.

ghost use Rattle.std.specs.Prelude.{◌≡◌, ℕ, ◌<◌, ◌≤◌, ◌↔◌, [], ◌∷◌, length, IsTrue};
ghost use Rattle.csn_look.specs.Ends.{InEnds};
ghost use Rattle.csn_look.specs.Reached.{Reached};
ghost use Rattle.csn_look.specs.Told.{OctetsAre};
ghost use Rattle.csn_certify.specs.Search.{IsSurveyed, IsFirstUnder, IsLastNode, MayEndAt, IsFollowed};

use crate::conflict::Conflict;
use crate::search::Search;
use csn_look::{OctetSet, Sign};

impl Search<'_> {
    /// The first conflict of a node that must be last.
    pub fn of_last(&self, node: u16) -> Option<Conflict>
        requires known { IsSurveyed self.now.desc.now self.now.look.now self.now.reach.now }
        requires last { IsLastNode self.now.desc.now node }
        ensures { IsFirstUnder self.now.desc.now (node ∷ []) result }
    {
        let ends = self.ends_of(node);
        for octet in 0..8 {
            if ends.has(octet) & self.is_followed(node, octet) {
                return Some(Conflict::NotLast { node, octet });
            }
        }
        None
    }

    /// The octet positions at which a node may end.
    fn ends_of(&self, node: u16) -> OctetSet
        requires known { IsSurveyed self.now.desc.now self.now.look.now self.now.reach.now }
        requires node { node < length self.now.desc.now.nodes }
        ensures { OctetsAre result (MayEndAt self.now.desc.now node) }
    {
        let mut ends = OctetSet::empty();
        for from in 0..8 {
            ends = ends.union(self.ends_from(node, from));
        }
        ends
    }

    /// The octet positions at which a node may end from this one, if it is reached there.
    fn ends_from(&self, node: u16, from: u8) -> OctetSet
        requires known { IsSurveyed self.now.desc.now self.now.look.now self.now.reach.now }
        requires node { node < length self.now.desc.now.nodes }
        requires octet { from ≤ 7 }
        ensures { OctetsAre result (λ octet. Reached self.now.desc.now node from × InEnds self.now.desc.now node from octet) }
    {
        if self.reach.reached(node).has(from) {
            self.look.ends(node, from)
        } else {
            OctetSet::empty()
        }
    }

    /// Whether a bit may follow a node that ends at an octet position.
    fn is_followed(&self, node: u16, octet: u8) -> bool
        requires known { IsSurveyed self.now.desc.now self.now.look.now self.now.reach.now }
        requires node { node < length self.now.desc.now.nodes }
        requires octet { octet ≤ 7 }
        ensures { IsTrue result ↔ IsFollowed self.now.desc.now node octet }
    {
        let next = self.reach.follow(node).at(octet);
        next.has(Sign::Zero) | next.has(Sign::One)
    }
}
