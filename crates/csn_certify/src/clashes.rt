//! Bits with which a part may go on or end.

ghost use Rattle.std.specs.Prelude.{◌≡◌, ℕ, ◌<◌, ◌≤◌, ◌↔◌, length, Some, IsTrue, IfSome};
ghost use Rattle.csn_look.specs.Starts.{InStart};
ghost use Rattle.csn_certify.specs.Search.{IsSurveyed, IsLeastFrom, IsClashing};

use crate::search::Search;
use csn_look::{Follow, Sign, SymbolSet};

impl Search<'_> {
    /// The least bit that a part may begin with at an octet position and that may follow a node there.
    pub fn clashing_bit(&self, part: u16, node: u16, octet: u8) -> Option<u8>
        requires known { IsSurveyed self.now.desc.now self.now.look.now self.now.reach.now }
        requires part { part < length self.now.desc.now.nodes }
        requires node { node < length self.now.desc.now.nodes }
        requires octet { octet ≤ 7 }
        ensures { IsLeastFrom 0 (IsClashing self.now.desc.now part node octet) result }
    {
        let starts = self.starts(part, octet);
        let next = self.reach.follow(node).at(octet);
        if starts.has(Sign::Zero) & next.has(Sign::Zero) {
            return Some(0);
        }
        if starts.has(Sign::One) & next.has(Sign::One) {
            return Some(1);
        }
        None
    }

    /// The bits that a part may begin with at an octet position.
    fn starts(&self, part: u16, octet: u8) -> SymbolSet
        requires known { IsSurveyed self.now.desc.now self.now.look.now self.now.reach.now }
        requires part { part < length self.now.desc.now.nodes }
        requires octet { octet ≤ 7 }
        ensures zero { IsTrue result.zero ↔ InStart self.now.desc.now part octet 0 }
        ensures one { IsTrue result.one ↔ InStart self.now.desc.now part octet 1 }
    {
        let nothing = Follow::new([SymbolSet::empty(); 8]);
        self.look.first(part, octet, &nothing)
    }
}
