//! Conflicts of a repetition.

ghost use Rattle.std.specs.Prelude.{◌≡◌, ◌≤◌, [], ◌∷◌, slice_get, Some};
ghost use Rattle.csn_desc.specs.declared.node.Count.{Count};
ghost use Rattle.csn_desc.specs.declared.node.Node.TheVariants.{Times, Many};
ghost use Rattle.csn_certify.specs.Conflicts.{rank_octets};
ghost use Rattle.csn_certify.specs.Search.{IsSurveyed, IsFirstUnder};

use crate::conflict::Conflict;
use crate::search::Search;

impl Search<'_> {
    /// The conflict of a repetition by number.
    pub fn of_times(&self, node: u16, part: u16) -> Option<Conflict>
        requires known { IsSurveyed self.now.desc.now self.now.look.now self.now.reach.now }
        requires times { (count : Count) × (slice_get self.now.desc.now.nodes node ≡ Some (Times count part)) }
        ensures { IsFirstUnder self.now.desc.now (node ∷ []) result }
    {
        if self.look.nullable(part) {
            return Some(Conflict::NotFirm { node, i: 0 });
        }
        None
    }

    /// The first conflict of a free repetition.
    pub fn of_many(&self, node: u16, part: u16) -> Option<Conflict>
        requires known { IsSurveyed self.now.desc.now self.now.look.now self.now.reach.now }
        requires many { slice_get self.now.desc.now.nodes node ≡ Some (Many part) }
        ensures { IsFirstUnder self.now.desc.now (node ∷ []) result }
    {
        if !self.look.firm(part) {
            return Some(Conflict::NotFirm { node, i: 0 });
        }
        self.loop_clash(node, part)
    }

    /// The first clash of a free repetition.
    fn loop_clash(&self, node: u16, part: u16) -> Option<Conflict>
        requires known { IsSurveyed self.now.desc.now self.now.look.now self.now.reach.now }
        requires many { slice_get self.now.desc.now.nodes node ≡ Some (Many part) }
        ensures { IsFirstUnder self.now.desc.now (node ∷ rank_octets ∷ []) result }
    {
        for octet in 0..8 {
            if let Some(conflict) = self.loop_clash_at(node, part, octet) {
                return Some(conflict);
            }
        }
        None
    }

    /// The first clash of a free repetition at an octet position.
    fn loop_clash_at(&self, node: u16, part: u16, octet: u8) -> Option<Conflict>
        requires known { IsSurveyed self.now.desc.now self.now.look.now self.now.reach.now }
        requires many { slice_get self.now.desc.now.nodes node ≡ Some (Many part) }
        requires octet { octet ≤ 7 }
        ensures { IsFirstUnder self.now.desc.now (node ∷ rank_octets ∷ octet ∷ []) result }
    {
        if !self.reach.reached(part).has(octet) {
            return None;
        }
        let bit = self.clashing_bit(part, node, octet)?;
        Some(Conflict::LoopClash { node, octet, bit })
    }
}
