//! Octet positions at which the alternatives of a choice have the same keys.

ghost use Rattle.std.specs.Prelude.{◌≡◌, ◌≤◌, length, slice_get, Some, IsTrue, IfSome};
ghost use Rattle.csn_desc.specs.declared.node.Node.TheVariants.{Choice};
ghost use Rattle.csn_look.specs.Steps.{HasPartsBelow};
ghost use Rattle.csn_certify.specs.Filling.{HaveSameTables, IsSameBefore};
ghost use Rattle.csn_certify.specs.Search.{IsSurveyed};

use crate::search::Search;
use csn_desc::Parts;

impl Search<'_> {
    /// The first octet position before this one at which a choice is reached and its alternatives have the same keys as
    /// here.
    pub fn same_before(&self, node: u16, parts: &Parts, octet: u8) -> Option<u8>
        requires known { IsSurveyed self.now.desc.now self.now.look.now self.now.reach.now }
        requires choice { slice_get self.now.desc.now.nodes node ≡ Some (Choice parts.now) }
        requires octet { octet ≤ 7 }
        ensures { IfSome result (IsSameBefore self.now.desc.now self.now.look.now node parts.now octet) }
    {
        for other in 0..octet {
            if self.reach.reached(node).has(other) && have_same_keys(self, parts, octet, other) {
                return Some(other);
            }
        }
        None
    }
}

/// Whether the alternatives of a choice have the same keys at two octet positions.
fn have_same_keys(known: &Search, parts: &Parts, octet: u8, other: u8) -> bool
    requires known { IsSurveyed known.now.desc.now known.now.look.now known.now.reach.now }
    requires below { HasPartsBelow (Choice parts.now) (length known.now.desc.now.nodes) }
    requires octet { octet ≤ 7 }
    requires other { other ≤ 7 }
    ensures { IsTrue result → HaveSameTables known.now.look.now parts.now octet other }
{
    for j in 0..parts.len() {
        if !known.look.same_keys(parts.get(j), octet, other) {
            return false;
        }
    }
    true
}
