//! Sets of octet positions, and where parts may end that begin at one of a set.

ghost use Rattle.std.specs.Prelude.{◌≡◌, ◌<◌, ◌≤◌, ◌↔◌, ◌⊎◌, ℕ, length, slice_get, slice_set, true, false, IsTrue, IfSome, IfNone};
ghost use Rattle.csn_claims.specs.Ends.{PartsEnd, LeadEnd, TimesEnd, ManyEnd};
ghost use Rattle.csn_good.specs.ClaimedSets.{claims_of};
ghost use Rattle.csn_good.specs.Octets.{has_octet, OctetsAre, OfSome, EndsFewer, PartsWithin};

use crate::claims::ends_at;
use csn_cert::Certificate;
use csn_desc::Parts;

/// For each octet position whether it is in the set.
#[derive(Clone, Copy)]
pub(crate) struct Octets {
    pub has: [bool; 8],
}

impl Octets {
    /// No octet position.
    pub fn none() -> Octets
        ensures { OctetsAre result.has (λ o. ⊥) }
    {
        Octets { has: [false; 8] }
    }

    /// Every octet position.
    pub fn all() -> Octets
        ensures { (o : ℕ) → o ≤ 7 → IsTrue (has_octet result.has o) }
    {
        Octets { has: [true; 8] }
    }

    /// The same octet positions and one more.
    pub fn with(self, octet: u8) -> Octets
        requires { octet ≤ 7 }
        ensures members { OctetsAre result.has (λ o. IsTrue (has_octet self.has o) ⊎ (o ≡ octet)) }
        ensures same { result.has ≡ slice_set self.has octet true }
    {
        let mut has = self.has;
        has[octet as usize] = true;
        Octets { has }
    }

    /// One octet position.
    pub fn only(octet: u8) -> Octets
        requires { octet ≤ 7 }
        ensures { OctetsAre result.has (λ o. o ≡ octet) }
    {
        Octets::none().with(octet)
    }

    /// Whether the octet position is in the set.
    pub fn contains(&self, octet: u8) -> bool
        requires { octet ≤ 7 }
        ensures { result ≡ has_octet self.now.has octet }
    {
        self.has[octet as usize]
    }

    /// The octet positions of either set.
    pub fn or(self, other: Octets) -> Octets
        ensures { OctetsAre result.has (λ o. IsTrue (has_octet self.has o) ⊎ IsTrue (has_octet other.has o)) }
    {
        let mut both = self;
        for octet in 0..8u8 {
            if other.contains(octet) {
                both = both.with(octet);
            }
        }
        both
    }
}

/// Whether node `i` may end at `end` where it begins at one of these octet positions.
fn leads_to(c: &Certificate, i: u16, from: &Octets, end: u8) -> bool
    requires node { i < length c.now }
    requires end { end ≤ 7 }
    ensures { IsTrue result ↔ OfSome from.now.has (λ o. IsTrue ((claims_of c.now).ends i o end)) }
{
    for octet in 0..8 {
        if from.contains(octet) && ends_at(c, i, octet, end) {
            return true;
        }
    }
    false
}

/// Where node `i` may end that begins at one of these octet positions.
pub(crate) fn through(c: &Certificate, i: u16, from: &Octets) -> Octets
    requires { i < length c.now }
    ensures { OctetsAre result.has (λ end. OfSome from.now.has (λ o. IsTrue ((claims_of c.now).ends i o end))) }
{
    let mut ends = Octets::none();
    for end in 0..8 {
        if leads_to(c, i, from, end) {
            ends = ends.with(end);
        }
    }
    ends
}

/// Where the parts may end, one after another.
pub(crate) fn through_parts(c: &Certificate, parts: &Parts, from: &Octets) -> Octets
    requires { PartsWithin parts.now (length c.now) }
    ensures { OctetsAre result.has (λ end. OfSome from.now.has (λ o. PartsEnd (claims_of c.now) parts.now o end)) }
{
    let mut here = *from;
    for at in 0..parts.len() {
        here = through(c, parts.get(at), &here);
    }
    here
}

/// Where the first few parts may end, also none.
pub(crate) fn through_lead(c: &Certificate, parts: &Parts, from: &Octets) -> Octets
    requires { PartsWithin parts.now (length c.now) }
    ensures { OctetsAre result.has (λ end. OfSome from.now.has (λ o. LeadEnd (claims_of c.now) parts.now o end)) }
{
    let mut here = *from;
    let mut ends = *from;
    for at in 0..parts.len() {
        here = through(c, parts.get(at), &here);
        ends = ends.or(here);
    }
    ends
}

/// Where `n` times node `i` may end.
pub(crate) fn through_times(c: &Certificate, i: u16, n: u32, from: &Octets) -> Octets
    requires { i < length c.now }
    ensures { OctetsAre result.has (λ end. OfSome from.now.has (λ o. TimesEnd (claims_of c.now) n i o end)) }
{
    let mut here = *from;
    for turn in 0..n {
        here = through(c, i, &here);
    }
    here
}

/// Where fewer than `n` times node `i` may end.
pub(crate) fn through_fewer(c: &Certificate, i: u16, n: u32, from: &Octets) -> Octets
    requires { i < length c.now }
    ensures { OctetsAre result.has (λ end. OfSome from.now.has (λ o. EndsFewer (claims_of c.now) n i o end)) }
{
    let mut here = *from;
    let mut ends = Octets::none();
    for turn in 0..n {
        ends = ends.or(here);
        here = through(c, i, &here);
    }
    ends
}

/// One octet position more that node `i` leads to from these.
fn one_more(c: &Certificate, i: u16, from: &Octets) -> Option<u8>
    requires { i < length c.now }
    ensures some { IfSome result (λ end. (end ≤ 7) × (has_octet from.now.has end ≡ false)
        × OfSome from.now.has (λ o. IsTrue ((claims_of c.now).ends i o end))) }
    ensures none { IfNone result ((end : ℕ) → end ≤ 7 → OfSome from.now.has
        (λ o. IsTrue ((claims_of c.now).ends i o end)) → IsTrue (has_octet from.now.has end)) }
{
    for end in 0..8 {
        if !from.contains(end) && leads_to(c, i, from, end) {
            return Some(end);
        }
    }
    None
}

/// Where any number of times node `i` may end.
pub(crate) fn through_many(c: &Certificate, i: u16, from: &Octets) -> Octets
    requires { i < length c.now }
    ensures { OctetsAre result.has (λ end. OfSome from.now.has (λ o. ManyEnd (claims_of c.now) i o end)) }
{
    let mut ends = *from;
    while let Some(end) = one_more(c, i, &ends) {
        ends = ends.with(end);
    }
    ends
}

/// The octet positions that node `i` has.
pub(crate) fn begins_of(c: &Certificate, i: u16) -> Octets
    requires { i < length c.now }
    ensures { OctetsAre result.has (λ o. IsTrue ((claims_of c.now).reached i o)) }
{
    let mut begins = Octets::none();
    for octet in 0..8 {
        if c.has(i, octet) {
            begins = begins.with(octet);
        }
    }
    begins
}

/// Whether node `i` has these octet positions.
pub(crate) fn has_all(c: &Certificate, i: u16, octets: &Octets) -> bool
    requires { i < length c.now }
    ensures { IsTrue result ↔ ((o : ℕ) → o ≤ 7 → IsTrue (has_octet octets.now.has o) → IsTrue ((claims_of c.now).reached i o)) }
{
    for octet in 0..8 {
        if octets.contains(octet) && !c.has(i, octet) {
            return false;
        }
    }
    true
}
