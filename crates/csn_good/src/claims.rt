//! What a certificate claims, test by test. At an octet position that a node does not have it claims nothing but what
//! may follow.

ghost use Rattle.std.specs.Prelude.{◌≡◌, ◌+◌, ◌*◌, ◌<◌, ◌≤◌, ◌↔◌, ℕ, length, slice_get, IfSome, IsTrue, Some, None};
ghost use Rattle.csn_good.specs.ClaimedSets.{has_digit, claims_of};
ghost use Rattle.csn_good.specs.Signs.{sign_of};

use csn_cert::Certificate;

/// Whether bits of node `i` are claimed to end at the octet position `end` that begin at `octet`.
pub(crate) fn ends_at(c: &Certificate, i: u16, octet: u8, end: u8) -> bool
    requires node { i < length c.now }
    requires octet { octet ≤ 7 }
    requires end { end ≤ 7 }
    ensures { result ≡ (claims_of c.now).ends i octet end }
{
    c.has(i, octet) && (c.ends(i, octet) >> (7 - end)) % 2 == 1
}

/// Whether node `i` is claimed to begin with the bit at the octet position `octet`.
pub(crate) fn starts_with(c: &Certificate, i: u16, octet: u8, bit: u8) -> bool
    requires octet { octet ≤ 7 }
    requires bit { bit ≤ 1 }
    requires node { i < length c.now }
    ensures { result ≡ (claims_of c.now).starts i octet bit }
{
    c.has(i, octet) && (c.start(i, octet) >> (1 - bit)) % 2 == 1
}

/// Whether the digit at a place, of those for what may follow node `i`, is 1.
fn follow_digit(c: &Certificate, i: u16, place: u8) -> bool
    requires node { i < length c.now }
    requires place { place < 24 }
    ensures { IfSome (slice_get c.now i) (λ n. result ≡ has_digit 24 n.follow place) }
{
    (c.follow(i) >> (23 - place)) % 2 == 1
}

/// Whether the bit is claimed to follow node `i` where it ends at the octet position `octet`.
pub(crate) fn followed_by(c: &Certificate, i: u16, octet: u8, bit: u8) -> bool
    requires node { i < length c.now }
    requires octet { octet ≤ 7 }
    requires bit { bit ≤ 1 }
    ensures { result ≡ (claims_of c.now).follow i octet (Some bit) }
{
    follow_digit(c, i, 3 * octet + bit)
}

/// Whether the end is claimed to follow it there.
pub(crate) fn followed_by_end(c: &Certificate, i: u16, octet: u8) -> bool
    requires node { i < length c.now }
    requires octet { octet ≤ 7 }
    ensures { result ≡ (claims_of c.now).follow i octet None }
{
    follow_digit(c, i, 3 * octet + 2)
}

/// Whether node `i` is claimed to end at the octet position, wherever it begins.
pub(crate) fn may_end(c: &Certificate, i: u16, end: u8) -> bool
    requires node { i < length c.now }
    requires end { end ≤ 7 }
    ensures { IsTrue result ↔ ((from : ℕ) × (from ≤ 7) × IsTrue ((claims_of c.now).ends i from end)) }
{
    for octet in 0..8 {
        if ends_at(c, i, octet, end) {
            return true;
        }
    }
    false
}

/// Whether node `i` is claimed to be nullable.
pub(crate) fn nullable(c: &Certificate, i: u16) -> bool
    requires { i < length c.now }
    ensures { result ≡ (claims_of c.now).nullable i }
{
    c.nullable(i)
}

/// Whether a sign is claimed to follow node `i` where it ends at the octet position: 0, 1, or 2 for the end.
pub(crate) fn follows(c: &Certificate, i: u16, octet: u8, sign: u8) -> bool
    requires node { i < length c.now }
    requires octet { octet ≤ 7 }
    requires sign { sign ≤ 2 }
    ensures { result ≡ (claims_of c.now).follow i octet (sign_of sign) }
{
    if sign == 2 {
        followed_by_end(c, i, octet)
    } else {
        followed_by(c, i, octet, sign)
    }
}
