//! Parts one after another, from the last one on: whether they may have no bits, and with which bits they may begin.

ghost use Rattle.std.specs.Prelude.{◌≡◌, ◌∷◌, ◌<◌, ◌≤◌, ◌↔◌, ◌⊎◌, ℕ, [], List, length, slice_get, IsTrue};
ghost use Rattle.csn_good.specs.ClaimedSets.{claims_of};
ghost use Rattle.csn_good.specs.Octets.{has_octet, OctetsAre, PartsWithin};
ghost use Rattle.csn_good.specs.Tails.{tail_has, TailIs, StartsBehind};

use crate::claims::{ends_at, nullable, starts_with};
use crate::octets::Octets;
use csn_cert::Certificate;
use csn_desc::Parts;

/// What is known of some last parts.
#[derive(Clone, Copy)]
pub(crate) struct Tail {
    pub nullable: bool,
    // the octet positions at which they may begin with the bit
    pub zero: Octets,
    pub one: Octets,
}

impl Tail {
    /// No parts.
    pub fn none() -> Tail
        ensures nullable { IsTrue result.nullable }
        ensures zero { OctetsAre result.zero.has (λ o. ⊥) }
        ensures one { OctetsAre result.one.has (λ o. ⊥) }
    {
        Tail {
            nullable: true,
            zero: Octets::none(),
            one: Octets::none(),
        }
    }

    /// Whether they may begin with the bit at the octet position.
    pub fn starts(&self, octet: u8, bit: u8) -> bool
        requires octet { octet ≤ 7 }
        requires bit { bit ≤ 1 }
        ensures { result ≡ tail_has self.now octet bit }
    {
        if bit == 0 {
            self.zero.contains(octet)
        } else {
            self.one.contains(octet)
        }
    }

    /// Whether they may begin with the bit where part `i` ends that begins at the octet position.
    fn starts_later(&self, c: &Certificate, i: u16, octet: u8, bit: u8) -> bool
        requires node { i < length c.now }
        requires octet { octet ≤ 7 }
        requires bit { bit ≤ 1 }
        ensures { IsTrue result ↔ ((end : ℕ) × (end ≤ 7) × IsTrue ((claims_of c.now).ends i octet end) × IsTrue (tail_has self.now end bit)) }
    {
        for end in 0..8 {
            if ends_at(c, i, octet, end) && self.starts(end, bit) {
                return true;
            }
        }
        false
    }

    /// Whether they may begin with the bit with part `i` before them.
    fn starts_behind(&self, c: &Certificate, i: u16, octet: u8, bit: u8) -> bool
        requires node { i < length c.now }
        requires octet { octet ≤ 7 }
        requires bit { bit ≤ 1 }
        ensures { IsTrue result ↔ StartsBehind (claims_of c.now) self.now i octet bit }
    {
        if starts_with(c, i, octet, bit) {
            return true;
        }
        nullable(c, i) && self.starts_later(c, i, octet, bit)
    }

    /// The octet positions at which they do.
    fn begins_behind(&self, c: &Certificate, i: u16, bit: u8) -> Octets
        requires node { i < length c.now }
        requires bit { bit ≤ 1 }
        ensures { OctetsAre result.has (λ o. StartsBehind (claims_of c.now) self.now i o bit) }
    {
        let mut begins = Octets::none();
        for octet in 0..8 {
            if self.starts_behind(c, i, octet, bit) {
                begins = begins.with(octet);
            }
        }
        begins
    }

    /// The same parts and part `i` before them.
    pub fn behind(&self, c: &Certificate, i: u16) -> Tail
        requires { i < length c.now }
        ensures { (parts : List ℕ) → TailIs (claims_of c.now) self.now parts → TailIs (claims_of c.now) result (i ∷ parts) }
    {
        Tail {
            nullable: self.nullable && nullable(c, i),
            zero: self.begins_behind(c, i, 0),
            one: self.begins_behind(c, i, 1),
        }
    }
}

/// What is known of the parts.
pub(crate) fn tail_of(c: &Certificate, parts: &Parts) -> Tail
    requires { PartsWithin parts.now (length c.now) }
    ensures { TailIs (claims_of c.now) result parts.now }
{
    let mut tail = Tail::none();
    for at in (0..parts.len()).rev() {
        tail = tail.behind(c, parts.get(at));
    }
    tail
}
