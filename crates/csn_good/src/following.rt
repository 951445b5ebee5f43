//! The rule of what follows: each part has, where it may end, what may stand behind it.

ghost use Rattle.std.specs.Prelude.{◌≡◌, ◌<◌, ◌≤◌, ◌↔◌, ℕ, length, IsTrue};
ghost use Rattle.csn_desc.specs.Nodes.{DescV};
ghost use Rattle.csn_cert.specs.CertificateV.{IsCertificate};
ghost use Rattle.csn_good.specs.Wanted.{TailStarts, PartStarts, Wants, HasWanted, PartsHave, ordered};
ghost use Rattle.csn_good.specs.ClaimedSets.{claims_of};
ghost use Rattle.csn_good.specs.Good.{KeepsFollow};
ghost use Rattle.csn_good.specs.Octets.{PartsWithin, NodeWithin};
ghost use Rattle.csn_good.specs.Signs.{sign_of};

use crate::claims::{follows, may_end, starts_with};
use crate::tail::Tail;
use csn_cert::Certificate;
use csn_desc::{Node, Parts};

/// The place of the end behind those of the bits.
const END: u8 = 2;

/// What stands behind a part besides what may follow its node: the later parts, and behind them what follows the node
/// where these may have no bits or be left out; the part itself again; nothing else; or the end alone.
#[derive(Clone, Copy)]
pub(crate) enum Around {
    Later { tail: Tail, ends_early: bool },
    Again,
    Alone,
    Closed,
}

/// Whether the later parts may begin with the sign.
fn tail_starts(tail: &Tail, octet: u8, sign: u8) -> bool
    requires octet { octet ≤ 7 }
    requires sign { sign ≤ 2 }
    ensures { IsTrue result ↔ TailStarts tail.now octet sign }
{
    sign != END && tail.starts(octet, sign)
}

/// Whether the part itself may.
fn part_starts(c: &Certificate, part: u16, octet: u8, sign: u8) -> bool
    requires part { part < length c.now }
    requires octet { octet ≤ 7 }
    requires sign { sign ≤ 2 }
    ensures { IsTrue result ↔ PartStarts (claims_of c.now) part octet sign }
{
    sign != END && starts_with(c, part, octet, sign)
}

/// Whether the sign may stand behind part `part` of node `k`.
fn wants(c: &Certificate, k: u16, part: u16, around: &Around, octet: u8, sign: u8) -> bool
    requires node { k < length c.now }
    requires part { part < length c.now }
    requires octet { octet ≤ 7 }
    requires sign { sign ≤ 2 }
    ensures { IsTrue result ↔ Wants (claims_of c.now) k part around.now octet sign }
{
    match around {
        Around::Later { tail, ends_early } => {
            if tail_starts(tail, octet, sign) {
                return true;
            }
            if !tail.nullable && !*ends_early {
                return false;
            }
            follows(c, k, octet, sign)
        }
        Around::Again => {
            if part_starts(c, part, octet, sign) {
                return true;
            }
            follows(c, k, octet, sign)
        }
        Around::Alone => follows(c, k, octet, sign),
        Around::Closed => sign == END,
    }
}

/// Whether part `part` has, where it ends at the octet position, each sign that may stand behind it.
fn has_wanted_at(c: &Certificate, k: u16, part: u16, around: &Around, octet: u8) -> bool
    requires node { k < length c.now }
    requires part { part < length c.now }
    requires octet { octet ≤ 7 }
    ensures { IsTrue result ↔ ((s : ℕ) → s ≤ 2 → Wants (claims_of c.now) k part around.now octet s → IsTrue
        ((claims_of c.now).follow part octet (sign_of s))) }
{
    for sign in 0..3 {
        if wants(c, k, part, around, octet, sign) && !follows(c, part, octet, sign) {
            return false;
        }
    }
    true
}

/// Whether it has so wherever it may end.
fn has_wanted(c: &Certificate, k: u16, part: u16, around: &Around) -> bool
    requires node { k < length c.now }
    requires part { part < length c.now }
    ensures { IsTrue result ↔ HasWanted (claims_of c.now) k part around.now }
{
    for octet in 0..8 {
        if may_end(c, part, octet) && !has_wanted_at(c, k, part, around, octet) {
            return false;
        }
    }
    true
}

/// Whether the parts have so what stands behind them, one after another.
fn in_order(c: &Certificate, k: u16, parts: &Parts, ends_early: bool) -> bool
    requires certificate { IsCertificate c.now }
    requires node { k < length c.now }
    requires parts { PartsWithin parts.now (length c.now) }
    ensures { IsTrue result ↔ PartsHave (claims_of c.now) k (ordered ends_early parts.now) }
{
    let mut tail = Tail::none();
    for at in (0..parts.len()).rev() {
        let part = parts.get(at);
        if !has_wanted(c, k, part, &Around::Later { tail, ends_early }) {
            return false;
        }
        tail = tail.behind(c, part);
    }
    true
}

/// Whether the alternatives have what may follow choice `k`.
fn each_has(c: &Certificate, k: u16, parts: &Parts) -> bool
    requires certificate { IsCertificate c.now }
    requires node { k < length c.now }
    requires parts { PartsWithin parts.now (length c.now) }
    ensures { IsTrue result ↔ PartsHave (claims_of c.now) k (Node.Choice parts.now) }
{
    for at in 0..parts.len() {
        if !has_wanted(c, k, parts.get(at), &Around::Alone) {
            return false;
        }
    }
    true
}

/// Whether the parts of node `k` have what may stand behind them.
fn parts_have(c: &Certificate, k: u16, node: &Node) -> bool
    requires certificate { IsCertificate c.now }
    requires node { k < length c.now }
    requires parts { NodeWithin node.now (length c.now) }
    ensures { IsTrue result ↔ PartsHave (claims_of c.now) k node.now }
{
    match node {
        Node::Seq(parts) => in_order(c, k, parts, false),
        Node::Choice(parts) => each_has(c, k, parts),
        Node::Times { count: _, part } => has_wanted(c, k, *part, &Around::Again),
        Node::Many(part) => has_wanted(c, k, *part, &Around::Again),
        Node::Trunc(parts) => in_order(c, k, parts, true),
        Node::Window {
            unit: _,
            count: _,
            part,
        } => has_wanted(c, k, *part, &Around::Closed),
        Node::Named { label: _, part } => has_wanted(c, k, *part, &Around::Alone),
        _ => true,
    }
}

/// Rule 7: the parts of node `k` have what may stand behind them, and the root the end.
pub(crate) fn keeps_follow(c: &Certificate, k: u16, node: &Node) -> bool
    requires node { k < length c.now }
    requires certificate { IsCertificate c.now }
    requires parts { NodeWithin node.now (length c.now) }
    ensures { (d : DescV) → IsTrue result ↔ KeepsFollow d c.now k node.now }
{
    if k == 0 && !has_wanted(c, 0, 0, &Around::Closed) {
        return false;
    }
    parts_have(c, k, node)
}
