ghost use Rattle.std.specs.Prelude.{◌≡◌, true, false, ◌&&◌, ◌||◌, ◌⊎◌, IsTrue};
ghost use Rattle.std.specs.FinSet as set;
ghost use Rattle.csn_look.specs.Told.{OctetsAre};
ghost use Rattle.csn_look.specs.Sums.{Has, IsSum, Leads};

use crate::octet_set::OctetSet;

/// What look-ahead knows of a node, or of parts one after another. Lengths count bits modulo 8.
#[derive(Clone, Copy, Debug)]
pub struct NodeSets {
    /// Whether there may be no bits.
    pub nullable: bool,
    /// Whether the empty word is a key, whole.
    pub whole_empty: bool,
    /// Whether the empty word is a key, cut.
    pub cut_empty: bool,
    /// How many bits there may be, modulo 8.
    pub lengths: OctetSet,
    /// The octet positions at which the first bit may be 0.
    pub zero: OctetSet,
    /// The octet positions at which the first bit may be 1.
    pub one: OctetSet,
}

impl NodeSets {
    /// Those of nothing at all, which is no node.
    pub(crate) fn none() -> NodeSets
        ensures nullable { result.nullable ≡ false }
        ensures whole_empty { result.whole_empty ≡ false }
        ensures cut_empty { result.cut_empty ≡ false }
        ensures lengths { result.lengths ≡ set.empty }
        ensures zero { result.zero ≡ set.empty }
        ensures one { result.one ≡ set.empty }
    {
        NodeSets {
            nullable: false,
            whole_empty: false,
            cut_empty: false,
            lengths: OctetSet::empty(),
            zero: OctetSet::empty(),
            one: OctetSet::empty(),
        }
    }

    /// Those of no bits.
    pub(crate) fn no_bits() -> NodeSets
        ensures nullable { result.nullable ≡ true }
        ensures whole_empty { result.whole_empty ≡ true }
        ensures cut_empty { result.cut_empty ≡ false }
        ensures lengths { result.lengths ≡ set.insert set.empty 0 }
        ensures zero { result.zero ≡ set.empty }
        ensures one { result.one ≡ set.empty }
    {
        NodeSets {
            nullable: true,
            whole_empty: true,
            lengths: OctetSet::empty().with(0),
            ..NodeSets::none()
        }
    }

    /// Those of one or the other.
    pub(crate) fn or(&self, other: &NodeSets) -> NodeSets
        ensures nullable { result.nullable ≡ (self.now.nullable || other.now.nullable) }
        ensures whole_empty { result.whole_empty ≡ (self.now.whole_empty || other.now.whole_empty) }
        ensures cut_empty { result.cut_empty ≡ (self.now.cut_empty || other.now.cut_empty) }
        ensures lengths { result.lengths ≡ set.union self.now.lengths other.now.lengths }
        ensures zero { result.zero ≡ set.union self.now.zero other.now.zero }
        ensures one { result.one ≡ set.union self.now.one other.now.one }
    {
        NodeSets {
            nullable: self.nullable | other.nullable,
            whole_empty: self.whole_empty | other.whole_empty,
            cut_empty: self.cut_empty | other.cut_empty,
            lengths: self.lengths.union(other.lengths),
            zero: self.zero.union(other.zero),
            one: self.one.union(other.one),
        }
    }

    /// Those of this and then the rest.
    pub(crate) fn then(&self, rest: &NodeSets) -> NodeSets
        ensures nullable { result.nullable ≡ (self.now.nullable && rest.now.nullable) }
        ensures whole_empty { result.whole_empty ≡ (self.now.whole_empty && rest.now.whole_empty) }
        ensures cut_empty { result.cut_empty ≡ (self.now.cut_empty || (self.now.whole_empty && rest.now.cut_empty)) }
        ensures lengths { OctetsAre result.lengths (IsSum self.now.lengths rest.now.lengths) }
        ensures zero { OctetsAre result.zero (λ o. Has self.now.zero o ⊎ (IsTrue self.now.nullable × Leads self.now.lengths rest.now.zero o)) }
        ensures one { OctetsAre result.one (λ o. Has self.now.one o ⊎ (IsTrue self.now.nullable × Leads self.now.lengths rest.now.one o)) }
    {
        NodeSets {
            nullable: self.nullable & rest.nullable,
            whole_empty: self.whole_empty & rest.whole_empty,
            cut_empty: self.cut_empty | (self.whole_empty & rest.cut_empty),
            lengths: self.lengths.plus(rest.lengths),
            zero: self.or_behind(self.zero, rest.zero),
            one: self.or_behind(self.one, rest.one),
        }
    }

    /// The octet positions of a set, and where there may be no bits those from which bits lead to one of
    /// the later positions.
    fn or_behind(&self, own: OctetSet, later: OctetSet) -> OctetSet
        ensures { OctetsAre result (λ o. Has own o ⊎ (IsTrue self.now.nullable × Leads self.now.lengths later o)) }
    {
        if self.nullable {
            own.union(later.before(self.lengths))
        } else {
            own
        }
    }
}
