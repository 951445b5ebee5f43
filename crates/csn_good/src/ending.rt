//! Where a node may end, by what is claimed of its parts.

ghost use Rattle.std.specs.Prelude.{◌≡◌, ◌+◌, ◌*◌, ◌%◌, ◌^◌, ◌<◌, ◌≤◌, ℕ, length, slice_get};
ghost use Rattle.csn_equations.specs.Ends.{MayCount};
ghost use Rattle.csn_claims.specs.Ends.{NodeEnds};
ghost use Rattle.csn_good.specs.ClaimedSets.{claims_of};
ghost use Rattle.csn_good.specs.Octets.{OctetsAre, OfSome, SomeEnds, TurnsEnd, PartsWithin, NodeWithin};

use crate::octets::{Octets, through, through_lead, through_many, through_parts, through_times};
use csn_cert::Certificate;
use csn_desc::{Count, Desc, Node, Parts};
use csn_equations::counts::{residues, value_width};

/// Where so many units of bits end that begin at an octet position.
fn end_of_units(octet: u8, unit: u8, n: u64) -> u8
    requires octet { octet ≤ 7 }
    requires few { n ≤ 8589934592 }
    ensures { result ≡ (octet + unit * n) % 8 }
{
    ((octet as u64 + unit as u64 * n) % 8) as u8
}

/// Where as many units of bits end as one of the first few values makes it.
fn ends_of_values(octet: u8, unit: u8, m: u8, c: u32, values: u8) -> Octets
    requires octet { octet ≤ 7 }
    requires values { values ≤ 8 }
    ensures { OctetsAre result.has (λ p. (value : ℕ) × (value < values) × (p ≡ (octet + unit * (m * value + c)) % 8)) }
{
    let mut ends = Octets::none();
    for value in 0..values {
        let n = m as u64 * value as u64 + c as u64;
        ends = ends.with(end_of_units(octet, unit, n));
    }
    ends
}

/// Where as many units of bits as counted may end.
fn ends_of_count(desc: &Desc, octet: u8, unit: u8, count: Count) -> Octets
    requires { octet ≤ 7 }
    ensures { OctetsAre result.has (λ p. (n : ℕ) × MayCount desc.now count n × (p ≡ (octet + unit * n) % 8)) }
{
    match count {
        Count::Fixed(n) => Octets::only(end_of_units(octet, unit, n as u64)),
        Count::Counted { m, field, c } => match value_width(desc, field) {
            Some(width) => ends_of_values(octet, unit, m, c, residues(width)),
            None => Octets::none(),
        },
    }
}

/// Where some of the parts may end.
fn ends_of_some(c: &Certificate, parts: &Parts, from: &Octets) -> Octets
    requires { PartsWithin parts.now (length c.now) }
    ensures { OctetsAre result.has (λ end. OfSome from.now.has (λ o. SomeEnds (claims_of c.now) parts.now o end)) }
{
    let mut ends = Octets::none();
    for at in 0..parts.len() {
        ends = ends.or(through(c, parts.get(at), from));
    }
    ends
}

/// Where a node may end that begins at an octet position.
pub(crate) fn ends_of(desc: &Desc, c: &Certificate, node: &Node, octet: u8) -> Octets
    requires octet { octet ≤ 7 }
    requires parts { NodeWithin node.now (length c.now) }
    ensures { OctetsAre result.has (NodeEnds desc.now (claims_of c.now) node.now octet) }
{
    let here = Octets::only(octet);
    match node {
        Node::Lits(run) => Octets::only(end_of_units(octet, 1, run.len() as u64)),
        Node::Spare(_) => Octets::only(end_of_units(octet, 1, 1)),
        Node::Pad => Octets::all(),
        Node::Null => here,
        Node::Field { unit, count } => ends_of_count(desc, octet, *unit, *count),
        Node::Rest => Octets::all(),
        Node::Seq(parts) => through_parts(c, parts, &here),
        Node::Choice(parts) => ends_of_some(c, parts, &here),
        Node::Times { count, part } => ends_of_times(c, *count, *part, &here),
        Node::Many(part) => through_many(c, *part, &here),
        Node::Trunc(parts) => through_lead(c, parts, &here),
        Node::Window {
            unit,
            count,
            part: _,
        } => ends_of_count(desc, octet, *unit, *count),
        Node::Named { label: _, part } => through(c, *part, &here),
    }
}

/// Where a repetition by number may end.
fn ends_of_times(c: &Certificate, count: Count, part: u16, from: &Octets) -> Octets
    requires { part < length c.now }
    ensures { OctetsAre result.has (λ end. OfSome from.now.has (λ o. TurnsEnd (claims_of c.now) count part o end)) }
{
    match count {
        Count::Fixed(n) => through_times(c, part, n, from),
        Count::Counted { .. } => through_many(c, part, from),
    }
}
