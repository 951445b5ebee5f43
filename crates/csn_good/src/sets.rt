//! The rules of the first three sets: a node has what its equation makes of the sets of its parts.

ghost use Rattle.std.specs.Prelude.{◌≡◌, ◌∷◌, ◌<◌, ◌≤◌, ◌↔◌, ℕ, [], length, slice_get, IsTrue, Some};
ghost use Rattle.csn_desc.specs.Nodes.{DescV};
ghost use Rattle.csn_desc.specs.Spelled.{IsSpare};
ghost use Rattle.csn_cert.specs.CertificateV.{IsCertificate};
ghost use Rattle.csn_good.specs.Octets.{PartsWithin, NodeWithin};
ghost use Rattle.csn_good.specs.Told.{SomeNullable, SomeStarts, LiteralStarts};
ghost use Rattle.csn_claims.specs.Nullable.{NodeNullable, AllNullable};
ghost use Rattle.csn_claims.specs.Ends.{NodeEnds};
ghost use Rattle.csn_claims.specs.Starts.{NodeStarts};
ghost use Rattle.csn_good.specs.ClaimedSets.{claims_of};
ghost use Rattle.csn_good.specs.Good.{KeepsNullable, KeepsEnds, KeepsStart};

use crate::claims::{ends_at, nullable, starts_with};
use crate::ending::ends_of;
use crate::tail::tail_of;
use csn_cert::Certificate;
use csn_desc::{Desc, Node, Parts, Reading, Run, Symbol};
use csn_equations::counts::may_be_none;

/// Whether each of the parts is claimed to be nullable.
fn all_nullable(c: &Certificate, parts: &Parts) -> bool
    requires { PartsWithin parts.now (length c.now) }
    ensures { IsTrue result ↔ AllNullable (claims_of c.now) parts.now }
{
    for at in 0..parts.len() {
        if !nullable(c, parts.get(at)) {
            return false;
        }
    }
    true
}

/// Whether some of the parts is.
fn some_nullable(c: &Certificate, parts: &Parts) -> bool
    requires { PartsWithin parts.now (length c.now) }
    ensures { IsTrue result ↔ SomeNullable (claims_of c.now) parts.now }
{
    for at in 0..parts.len() {
        if nullable(c, parts.get(at)) {
            return true;
        }
    }
    false
}

/// Whether a node may have no bits.
fn is_nullable(c: &Certificate, node: &Node) -> bool
    requires { NodeWithin node.now (length c.now) }
    ensures { IsTrue result ↔ NodeNullable (claims_of c.now) node.now }
{
    match node {
        Node::Lits(_) => false,
        Node::Spare(_) => false,
        Node::Pad => false,
        Node::Null => true,
        Node::Field { unit: _, count } => may_be_none(*count),
        Node::Rest => true,
        Node::Seq(parts) => all_nullable(c, parts),
        Node::Choice(parts) => some_nullable(c, parts),
        Node::Times { count, part } => may_be_none(*count) || nullable(c, *part),
        Node::Many(_) => true,
        Node::Trunc(_) => true,
        Node::Window {
            unit: _,
            count,
            part,
        } => may_be_none(*count) && nullable(c, *part),
        Node::Named { label: _, part } => nullable(c, *part),
    }
}

/// Rule 2: a node that may have no bits is claimed to be nullable.
pub(crate) fn keeps_nullable(c: &Certificate, i: u16, node: &Node) -> bool
    requires node { i < length c.now }
    requires parts { NodeWithin node.now (length c.now) }
    ensures { (d : DescV) → IsTrue result ↔ KeepsNullable d c.now i node.now }
{
    nullable(c, i) || !is_nullable(c, node)
}

/// Whether node `i` is claimed to end, from one octet position, wherever it may.
fn has_ends(desc: &Desc, c: &Certificate, i: u16, node: &Node, octet: u8) -> bool
    requires node { i < length c.now }
    requires octet { octet ≤ 7 }
    requires parts { NodeWithin node.now (length c.now) }
    ensures { IsTrue result ↔ ((p : ℕ) → p ≤ 7 → NodeEnds desc.now (claims_of c.now) node.now octet p → IsTrue ((claims_of c.now).ends i octet p)) }
{
    let ends = ends_of(desc, c, node, octet);
    for end in 0..8 {
        if ends.contains(end) && !ends_at(c, i, octet, end) {
            return false;
        }
    }
    true
}

/// Rule 3: from each octet position that it has, a node is claimed to end wherever it may.
pub(crate) fn keeps_ends(desc: &Desc, c: &Certificate, i: u16, node: &Node) -> bool
    requires certificate { IsCertificate c.now }
    requires node { i < length c.now }
    requires parts { NodeWithin node.now (length c.now) }
    ensures { IsTrue result ↔ KeepsEnds desc.now c.now i node.now }
{
    for octet in 0..8 {
        if c.has(i, octet) && !has_ends(desc, c, i, node, octet) {
            return false;
        }
    }
    true
}

/// Whether a spare bit may be this one.
fn spare_may_be(reading: Reading, symbol: Symbol, octet: u8, bit: u8) -> bool
    requires octet { octet ≤ 7 }
    requires bit { bit ≤ 1 }
    ensures { IsTrue result ↔ IsSpare reading symbol octet (bit ∷ []) }
{
    match reading {
        Reading::Received => true,
        Reading::Sent => symbol.bit(u32::from(octet)) == bit,
    }
}

/// Whether a literal begins with the bit.
fn literal_starts(run: &Run, octet: u8, bit: u8) -> bool
    requires octet { octet ≤ 7 }
    ensures { IsTrue result ↔ LiteralStarts run.now octet bit }
{
    run.len() > 0 && run.get(0).bit(u32::from(octet)) == bit
}

/// Whether some of the parts is claimed to begin with the bit.
fn some_starts(c: &Certificate, parts: &Parts, octet: u8, bit: u8) -> bool
    requires parts { PartsWithin parts.now (length c.now) }
    requires octet { octet ≤ 7 }
    requires bit { bit ≤ 1 }
    ensures { IsTrue result ↔ SomeStarts (claims_of c.now) parts.now octet bit }
{
    for at in 0..parts.len() {
        if starts_with(c, parts.get(at), octet, bit) {
            return true;
        }
    }
    false
}

/// Whether a node may begin with the bit at an octet position.
fn may_start(desc: &Desc, c: &Certificate, node: &Node, octet: u8, bit: u8) -> bool
    requires parts { NodeWithin node.now (length c.now) }
    requires octet { octet ≤ 7 }
    requires bit { bit ≤ 1 }
    ensures { IsTrue result ↔ NodeStarts desc.now (claims_of c.now) node.now octet bit }
{
    match node {
        Node::Lits(run) => literal_starts(run, octet, bit),
        Node::Spare(symbol) => spare_may_be(desc.reading(), *symbol, octet, bit),
        Node::Pad => spare_may_be(desc.reading(), Symbol::Low, octet, bit),
        Node::Null => false,
        Node::Field { unit: _, count: _ } => true,
        Node::Rest => true,
        Node::Seq(parts) => tail_of(c, parts).starts(octet, bit),
        Node::Choice(parts) => some_starts(c, parts, octet, bit),
        Node::Times { count: _, part } => starts_with(c, *part, octet, bit),
        Node::Many(part) => starts_with(c, *part, octet, bit),
        Node::Trunc(parts) => tail_of(c, parts).starts(octet, bit),
        Node::Window {
            unit: _,
            count: _,
            part,
        } => starts_with(c, *part, octet, bit),
        Node::Named { label: _, part } => starts_with(c, *part, octet, bit),
    }
}

/// Whether node `i` is claimed to begin, at one octet position, with each bit with which it may.
fn has_starts(desc: &Desc, c: &Certificate, i: u16, node: &Node, octet: u8) -> bool
    requires node { i < length c.now }
    requires octet { octet ≤ 7 }
    requires parts { NodeWithin node.now (length c.now) }
    ensures { IsTrue result ↔ ((bit : ℕ) → bit ≤ 1 → NodeStarts desc.now (claims_of c.now) node.now octet bit → IsTrue
        ((claims_of c.now).starts i octet bit)) }
{
    for bit in 0..2 {
        if may_start(desc, c, node, octet, bit) && !starts_with(c, i, octet, bit) {
            return false;
        }
    }
    true
}

/// Rule 4: at each octet position that it has, a node is claimed to begin with each bit with which it may.
pub(crate) fn keeps_start(desc: &Desc, c: &Certificate, i: u16, node: &Node) -> bool
    requires node { i < length c.now }
    requires parts { NodeWithin node.now (length c.now) }
    requires certificate { IsCertificate c.now }
    ensures { IsTrue result ↔ KeepsStart desc.now c.now i node.now }
{
    for octet in 0..8 {
        if c.has(i, octet) && !has_starts(desc, c, i, node, octet) {
            return false;
        }
    }
    true
}
