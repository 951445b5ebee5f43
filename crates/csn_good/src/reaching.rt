//! The rule of octet positions: each part has those at which it may begin.

ghost use Rattle.std.specs.Prelude.{◌≡◌, ◌<◌, ◌≤◌, ◌↔◌, ◌∷◌, ◌++◌, ℕ, List, length, slice_get, IsTrue};
ghost use Rattle.csn_desc.specs.Nodes.{DescV};
ghost use Rattle.csn_cert.specs.CertificateV.{IsCertificate};
ghost use Rattle.csn_claims.specs.Reached.{PartReached};
ghost use Rattle.csn_good.specs.ClaimedSets.{claims_of};
ghost use Rattle.csn_good.specs.Good.{KeepsReached};
ghost use Rattle.csn_good.specs.Octets.{has_octet, OctetsAre, OfSome, TurnBegins, PartsWithin, NodeWithin};
ghost use Rattle.csn_good.specs.Told.{EachReached, OrderReached, PartsReach};

use crate::octets::{Octets, begins_of, has_all, through, through_fewer, through_many};
use csn_cert::Certificate;
use csn_desc::{Count, Node, Parts};

/// Whether each part has the octet positions at which the parts before it may end.
fn in_order(c: &Certificate, parts: &Parts, begins: &Octets) -> bool
    requires { PartsWithin parts.now (length c.now) }
    ensures { IsTrue result ↔ OrderReached (claims_of c.now) begins.now.has parts.now }
{
    let mut here = *begins;
    for at in 0..parts.len() {
        if !has_all(c, parts.get(at), &here) {
            return false;
        }
        here = through(c, parts.get(at), &here);
    }
    true
}

/// Whether each part has these octet positions.
fn each_has(c: &Certificate, parts: &Parts, begins: &Octets) -> bool
    requires { PartsWithin parts.now (length c.now) }
    ensures { IsTrue result ↔ EachReached (claims_of c.now) begins.now.has parts.now }
{
    for at in 0..parts.len() {
        if !has_all(c, parts.get(at), begins) {
            return false;
        }
    }
    true
}

/// Where a turn of a repetition by number may begin.
fn turns_begin(c: &Certificate, count: Count, part: u16, from: &Octets) -> Octets
    requires { part < length c.now }
    ensures { OctetsAre result.has (λ p. OfSome from.now.has (λ o. TurnBegins (claims_of c.now) count part o p)) }
{
    match count {
        Count::Counted { .. } => through_many(c, part, from),
        Count::Fixed(n) => through_fewer(c, part, n, from),
    }
}

/// Whether each part of node `i` has the octet positions at which it may begin.
fn parts_reached(c: &Certificate, i: u16, node: &Node) -> bool
    requires certificate { IsCertificate c.now }
    requires node { i < length c.now }
    requires parts { NodeWithin node.now (length c.now) }
    ensures { IsTrue result ↔ PartsReach (claims_of c.now) i node.now }
{
    let begins = begins_of(c, i);
    match node {
        Node::Seq(parts) => in_order(c, parts, &begins),
        Node::Choice(parts) => each_has(c, parts, &begins),
        Node::Times { count, part } => has_all(c, *part, &turns_begin(c, *count, *part, &begins)),
        Node::Many(part) => has_all(c, *part, &through_many(c, *part, &begins)),
        Node::Trunc(parts) => in_order(c, parts, &begins),
        Node::Window {
            unit: _,
            count: _,
            part,
        } => has_all(c, *part, &begins),
        Node::Named { label: _, part } => has_all(c, *part, &begins),
        _ => true,
    }
}

/// Rule 6: each part of node `i` has the octet positions at which it may begin, and the root that of the block.
pub(crate) fn keeps_reached(c: &Certificate, i: u16, node: &Node) -> bool
    requires certificate { IsCertificate c.now }
    requires node { i < length c.now }
    requires parts { NodeWithin node.now (length c.now) }
    ensures { (d : DescV) → IsTrue result ↔ KeepsReached d c.now i node.now }
{
    if i == 0 && !c.has(0, 0) {
        return false;
    }
    parts_reached(c, i, node)
}
