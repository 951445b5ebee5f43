//! Conflicts of a choice.

ghost use Rattle.std.specs.Prelude.{◌≡◌, ℕ, ◌<◌, ◌≤◌, ◌↔◌, [], ◌∷◌, length, slice_get, Some, None, IsTrue, IfSome, IfOk};
ghost use Rattle.csn_desc.specs.declared.node.Node.TheVariants.{Choice};
ghost use Rattle.csn_look.specs.Reached.{Reached};
ghost use Rattle.csn_certify.specs.Conflicts.{IsNull, rank_empty_clash, rank_not_firm, rank_octets, rank_two_empty};
ghost use Rattle.csn_certify.specs.Search.{IsSurveyed, IsFirstUnder, IsLeastFrom, IsNullAt};

use crate::conflict::Conflict;
use crate::search::{Found, Search};
use csn_desc::{Node, Parts};
use std::alloc::Global;

/// A choice: its node, and the alternatives that it has.
#[derive(Clone, Copy)]
pub(crate) struct Alternatives<'a> {
    pub node: u16,
    pub parts: &'a Parts,
}

impl Search<'_> {
    /// The first conflict of a choice with these alternatives.
    pub fn of_choice(&self, alloc: Global, node: u16, parts: &Parts) -> Found
        requires known { IsSurveyed self.now.desc.now self.now.look.now self.now.reach.now }
        requires choice { slice_get self.now.desc.now.nodes node ≡ Some (Choice parts.now) }
        ensures { IfOk result (IsFirstUnder self.now.desc.now (node ∷ [])) }
    {
        let choice = Alternatives { node, parts };
        if let Some(conflict) = self.two_empty(&choice) {
            return Ok(Some(conflict));
        }
        if let Some(conflict) = self.choice_not_firm(&choice) {
            return Ok(Some(conflict));
        }
        self.choice_clash(alloc, &choice)
    }

    /// Two alternatives that take no bits.
    fn two_empty(&self, choice: &Alternatives) -> Option<Conflict>
        requires known { IsSurveyed self.now.desc.now self.now.look.now self.now.reach.now }
        requires choice { slice_get self.now.desc.now.nodes choice.now.node ≡ Some (Choice choice.now.parts.now) }
        ensures { IsFirstUnder self.now.desc.now (choice.now.node ∷ rank_two_empty ∷ []) result }
    {
        let i = self.first_null(choice, 0)?;
        let j = self.first_null(choice, i + 1)?;
        Some(Conflict::TwoEmpty {
            node: choice.node,
            i,
            j,
        })
    }

    /// The first alternative of a choice that takes no bits, from one on.
    fn first_null(&self, choice: &Alternatives, from: u16) -> Option<u16>
        requires known { IsSurveyed self.now.desc.now self.now.look.now self.now.reach.now }
        requires choice { slice_get self.now.desc.now.nodes choice.now.node ≡ Some (Choice choice.now.parts.now) }
        ensures least { IsLeastFrom from (IsNullAt self.now.desc.now choice.now.parts.now) result }
        ensures small { IfSome result (λ j. j < 16384) }
    {
        for j in from..choice.parts.len() {
            if self.is_null(choice.parts.get(j)) {
                return Some(j);
            }
        }
        None
    }

    /// Whether a node takes no bits.
    pub fn is_null(&self, node: u16) -> bool
        requires { node < length self.now.desc.now.nodes }
        ensures { IsTrue result ↔ IsNull self.now.desc.now node }
    {
        matches!(self.desc.node(node), Node::Null)
    }

    /// The first alternative that takes bits and is not firm.
    fn choice_not_firm(&self, choice: &Alternatives) -> Option<Conflict>
        requires known { IsSurveyed self.now.desc.now self.now.look.now self.now.reach.now }
        requires choice { slice_get self.now.desc.now.nodes choice.now.node ≡ Some (Choice choice.now.parts.now) }
        ensures { IsFirstUnder self.now.desc.now (choice.now.node ∷ rank_not_firm ∷ []) result }
    {
        for i in 0..choice.parts.len() {
            let part = choice.parts.get(i);
            if !self.is_null(part) & !self.look.firm(part) {
                return Some(Conflict::NotFirm {
                    node: choice.node,
                    i,
                });
            }
        }
        None
    }

    /// The first overlap or clash of a choice.
    fn choice_clash(&self, alloc: Global, choice: &Alternatives) -> Found
        requires known { IsSurveyed self.now.desc.now self.now.look.now self.now.reach.now }
        requires choice { slice_get self.now.desc.now.nodes choice.now.node ≡ Some (Choice choice.now.parts.now) }
        ensures { IfOk result (IsFirstUnder self.now.desc.now (choice.now.node ∷ rank_octets ∷ [])) }
    {
        for octet in 0..8 {
            if let Some(conflict) = self.choice_clash_at(alloc, choice, octet)? {
                return Ok(Some(conflict));
            }
        }
        Ok(None)
    }

    /// The first overlap or clash of a choice at an octet position, where there is none at those before it.
    fn choice_clash_at(&self, alloc: Global, choice: &Alternatives, octet: u8) -> Found
        requires known { IsSurveyed self.now.desc.now self.now.look.now self.now.reach.now }
        requires choice { slice_get self.now.desc.now.nodes choice.now.node ≡ Some (Choice choice.now.parts.now) }
        requires octet { octet ≤ 7 }
        requires before { (other : ℕ) → other < octet → IsFirstUnder self.now.desc.now (choice.now.node ∷ rank_octets ∷ other ∷ []) None }
        ensures { IfOk result (IsFirstUnder self.now.desc.now (choice.now.node ∷ rank_octets ∷ octet ∷ [])) }
    {
        if !self.reach.reached(choice.node).has(octet) {
            return Ok(None);
        }
        if let Some(conflict) = self.overlap(alloc, choice, octet)? {
            return Ok(Some(conflict));
        }
        Ok(self.empty_clash(choice, octet))
    }

    /// The first bit at an octet position that an alternative may begin with and that may follow the
    /// choice, beside one that takes no bits.
    fn empty_clash(&self, choice: &Alternatives, octet: u8) -> Option<Conflict>
        requires known { IsSurveyed self.now.desc.now self.now.look.now self.now.reach.now }
        requires choice { slice_get self.now.desc.now.nodes choice.now.node ≡ Some (Choice choice.now.parts.now) }
        requires octet { octet ≤ 7 }
        requires reached { Reached self.now.desc.now choice.now.node octet }
        ensures { IsFirstUnder self.now.desc.now (choice.now.node ∷ rank_octets ∷ octet ∷ rank_empty_clash ∷ []) result }
    {
        self.first_null(choice, 0)?;
        let bit = self.clashing_bit(choice.node, choice.node, octet)?;
        Some(Conflict::EmptyClash {
            node: choice.node,
            octet,
            bit,
        })
    }
}
