//! The rule of conflicts: a node has none.

ghost use Rattle.std.specs.Prelude.{◌≡◌, ◌≢◌, ◌<◌, ◌≤◌, ◌↔◌, ℕ, true, false, length, slice_get, IsTrue, IsSome, IfOk, Some};
ghost use Rattle.csn_cert.specs.CertificateV.{IsCertificate};
ghost use Rattle.csn_claims.specs.Conflicts.{IsNull};
ghost use Rattle.csn_good.specs.ClaimedSets.{claims_of, patterns_at};
ghost use Rattle.csn_good.specs.Good.{KeepsApart};
ghost use Rattle.csn_good.specs.Octets.{has_octet, PartsWithin, NodeWithin};
ghost use Rattle.csn_good.specs.Apart.{PatternsMeet, SomeMeets, PartsMeet, HasEmpty, IsFirmNode, Overlaps, ClashesAt};
ghost use Rattle.csn_good.specs.Apart.{Clashes, TurnsClash, BitBehind, AreApart, IsApart, EachApart};

use crate::bit_by_bit::{lists_meet, marks_meet};
use crate::claims::{followed_by, may_end, nullable, starts_with};
use crate::octets::{begins_of, through_many};
use csn_bits::NoMemory;
use csn_cert::{Certificate, Pattern};
use csn_desc::{Desc, Node, Parts};
use std::alloc::Global;

/// So many pairs of patterns are gone through as soon as lists of them are made.
const FEW_PAIRS: u64 = 64;

/// Whether a word of the one pattern begins with one of the other.
fn patterns_meet(left: Pattern, right: Pattern) -> bool
    ensures { IsTrue result ↔ PatternsMeet left right }
{
    for at in 0..left.len() {
        if at < right.len() && !marks_meet(left.get(at), right.get(at)) {
            return false;
        }
    }
    true
}

/// Whether some claimed pattern of part `part` meets this one.
fn some_meets(c: &Certificate, part: u16, octet: u8, pattern: Pattern) -> bool
    requires octet { octet ≤ 7 }
    requires part { part < length c.now }
    ensures { IsTrue result ↔ SomeMeets c.now part octet pattern }
{
    if !c.has(part, octet) {
        return false;
    }
    for k in 0..c.patterns(part, octet) {
        if patterns_meet(pattern, c.pattern_at(part, octet, k)) {
            return true;
        }
    }
    false
}

/// Whether some patterns of two parts meet, pair by pair.
fn pairs_meet(c: &Certificate, left: u16, right: u16, octet: u8) -> bool
    requires octet { octet ≤ 7 }
    requires left { left < length c.now }
    requires right { right < length c.now }
    ensures { IsTrue result ↔ PartsMeet c.now left right octet }
{
    if !c.has(left, octet) {
        return false;
    }
    for k in 0..c.patterns(left, octet) {
        if some_meets(c, right, octet, c.pattern_at(left, octet, k)) {
            return true;
        }
    }
    false
}

/// How many patterns node `i` has at the octet position.
fn patterns_count(c: &Certificate, i: u16, octet: u8) -> u32
    requires octet { octet ≤ 7 }
    requires node { i < length c.now }
    ensures { result ≡ length (patterns_at c.now i octet) }
{
    if !c.has(i, octet) {
        return 0;
    }
    c.patterns(i, octet)
}

/// The patterns of node `i` at the octet position.
fn patterns_list(
    alloc: Global,
    c: &Certificate,
    i: u16,
    octet: u8,
) -> Result<Vec<Pattern>, NoMemory>
    requires octet { octet ≤ 7 }
    requires node { i < length c.now }
    ensures { IfOk result (λ list. list.items ≡ patterns_at c.now i octet) }
{
    let mut list = Vec::new(alloc);
    if !c.has(i, octet) {
        return Ok(list);
    }
    for k in 0..c.patterns(i, octet) {
        list.push(c.pattern_at(i, octet, k))?;
    }
    Ok(list)
}

/// Whether some patterns of two parts meet: pair by pair where they are few, and else bit by bit.
fn parts_meet(
    alloc: Global,
    c: &Certificate,
    left: u16,
    right: u16,
    octet: u8,
) -> Result<bool, NoMemory>
    requires octet { octet ≤ 7 }
    requires left { left < length c.now }
    requires right { right < length c.now }
    ensures { IfOk result (λ meet. IsTrue meet ↔ PartsMeet c.now left right octet) }
{
    let own = u64::from(patterns_count(c, left, octet));
    let others = u64::from(patterns_count(c, right, octet));
    if own * others <= FEW_PAIRS {
        return Ok(pairs_meet(c, left, right, octet));
    }
    let lefts = patterns_list(alloc, c, left, octet)?;
    let rights = patterns_list(alloc, c, right, octet)?;
    Ok(lists_meet(alloc, lefts.as_slice(), rights.as_slice(), 0)?)
}

/// Whether node `i` takes no bits.
fn is_null(desc: &Desc, i: u16) -> bool
    requires { i < length desc.now.nodes }
    ensures { IsTrue result ↔ IsNull desc.now i }
{
    matches!(desc.node(i), Node::Null)
}

/// Whether a turn of free repetition `i` may begin with a bit that may follow it.
fn turns_clash(c: &Certificate, i: u16, part: u16) -> bool
    requires node { i < length c.now }
    requires part { part < length c.now }
    ensures { IsTrue result ↔ TurnsClash c.now i part }
{
    let turns = through_many(c, part, &begins_of(c, i));
    for octet in 0..8 {
        if turns.contains(octet) && clashes_at(c, i, part, octet) {
            return true;
        }
    }
    false
}

/// Whether node `i` has an empty pattern at the octet position.
fn has_empty(c: &Certificate, i: u16, octet: u8) -> bool
    requires node { i < length c.now }
    requires octet { octet ≤ 7 }
    ensures { IsTrue result ↔ HasEmpty c.now i octet }
{
    if !c.has(i, octet) {
        return false;
    }
    for k in 0..c.patterns(i, octet) {
        if c.pattern_at(i, octet, k).len() == 0 {
            return true;
        }
    }
    false
}

/// Whether a part may begin with a bit that may follow node `i`, at the octet position.
fn clashes_at(c: &Certificate, i: u16, part: u16, octet: u8) -> bool
    requires node { i < length c.now }
    requires part { part < length c.now }
    requires octet { octet ≤ 7 }
    ensures { IsTrue result ↔ ClashesAt c.now i part octet }
{
    for bit in 0..2 {
        if starts_with(c, part, octet, bit) && followed_by(c, i, octet, bit) {
            return true;
        }
    }
    false
}

/// Whether a bit may follow node `i` where it ends at the octet position.
fn bit_follows(c: &Certificate, i: u16, octet: u8) -> bool
    requires node { i < length c.now }
    requires octet { octet ≤ 7 }
    ensures { IsTrue result ↔ ((bit : ℕ) × (bit ≤ 1) × IsTrue ((claims_of c.now).follow i octet (Some bit))) }
{
    for bit in 0..2 {
        if followed_by(c, i, octet, bit) {
            return true;
        }
    }
    false
}

/// Whether node `i` is firm.
fn is_firm(c: &Certificate, i: u16) -> bool
    requires { i < length c.now }
    ensures { IsTrue result ↔ IsFirmNode c.now i }
{
    if nullable(c, i) {
        return false;
    }
    for octet in 0..8 {
        if has_empty(c, i, octet) {
            return false;
        }
    }
    true
}

/// Whether the patterns of two parts meet at an octet position that node `i` has.
fn overlap(alloc: Global, c: &Certificate, i: u16, left: u16, right: u16) -> Result<bool, NoMemory>
    requires node { i < length c.now }
    requires left { left < length c.now }
    requires right { right < length c.now }
    ensures { IfOk result (λ overlap. IsTrue overlap ↔ Overlaps c.now i left right) }
{
    for octet in 0..8 {
        if c.has(i, octet) && parts_meet(alloc, c, left, right, octet)? {
            return Ok(true);
        }
    }
    Ok(false)
}

/// Whether a part may begin with a bit that may follow node `i`, at an octet position that it has.
fn clashes(c: &Certificate, i: u16, part: u16) -> bool
    requires node { i < length c.now }
    requires part { part < length c.now }
    ensures { IsTrue result ↔ Clashes c.now i part }
{
    for octet in 0..8 {
        if c.has(i, octet) && clashes_at(c, i, part, octet) {
            return true;
        }
    }
    false
}

/// Whether a bit may follow node `i` wherever it ends.
fn something_follows(c: &Certificate, i: u16) -> bool
    requires { i < length c.now }
    ensures { IsTrue result ↔ BitBehind c.now i }
{
    for octet in 0..8 {
        if may_end(c, i, octet) && bit_follows(c, i, octet) {
            return true;
        }
    }
    false
}

/// Whether two alternatives of choice `i`, the one before the other, do not leave it open which is meant.
fn are_apart(
    alloc: Global,
    desc: &Desc,
    c: &Certificate,
    i: u16,
    left: u16,
    right: u16,
) -> Result<bool, NoMemory>
    requires number { length c.now ≡ length desc.now.nodes }
    requires node { i < length c.now }
    requires left { left < length c.now }
    requires right { right < length c.now }
    ensures { IfOk result (λ apart. IsTrue apart ↔ AreApart desc.now c.now i left right) }
{
    if is_null(desc, left) {
        return Ok(!is_null(desc, right) && !clashes(c, i, right));
    }
    if is_null(desc, right) {
        return Ok(!clashes(c, i, left));
    }
    Ok(!overlap(alloc, c, i, left, right)?)
}

/// Whether the alternative at a place takes no bits or is firm, and is apart from each later one.
fn alternative_is_apart(
    alloc: Global,
    desc: &Desc,
    c: &Certificate,
    i: u16,
    parts: &Parts,
    place: u16,
) -> Result<bool, NoMemory>
    requires number { length c.now ≡ length desc.now.nodes }
    requires node { i < length c.now }
    requires parts { PartsWithin parts.now (length c.now) }
    requires place { place < length parts.now }
    ensures { IfOk result (λ apart. (part : ℕ) → slice_get parts.now place ≡ Some part → IsTrue apart ↔ IsApart desc.now c.now i parts.now place part) }
{
    let count = parts.len();
    let alternative = parts.get(place);
    if !is_null(desc, alternative) && !is_firm(c, alternative) {
        return Ok(false);
    }
    for later in place + 1..count {
        if !are_apart(alloc, desc, c, i, alternative, parts.get(later))? {
            return Ok(false);
        }
    }
    Ok(true)
}

/// Whether the alternatives of choice `i` are apart.
fn choice_is_apart(
    alloc: Global,
    desc: &Desc,
    c: &Certificate,
    i: u16,
    parts: &Parts,
) -> Result<bool, NoMemory>
    requires number { length c.now ≡ length desc.now.nodes }
    requires node { i < length c.now }
    requires parts { PartsWithin parts.now (length c.now) }
    ensures { IfOk result (λ apart. IsTrue apart ↔ EachApart desc.now c.now i parts.now) }
{
    for place in 0..parts.len() {
        if !alternative_is_apart(alloc, desc, c, i, parts, place)? {
            return Ok(false);
        }
    }
    Ok(true)
}

/// Rule 8: node `i` has no conflict.
pub(crate) fn keeps_apart(
    alloc: Global,
    desc: &Desc,
    c: &Certificate,
    i: u16,
    node: &Node,
) -> Result<bool, NoMemory>
    requires certificate { IsCertificate c.now }
    requires number { length c.now ≡ length desc.now.nodes }
    requires node { i < length c.now }
    requires parts { NodeWithin node.now (length c.now) }
    ensures { IfOk result (λ keeps. IsTrue keeps ↔ KeepsApart desc.now c.now i node.now) }
{
    match node {
        Node::Lits(_) => Ok(true),
        Node::Spare(_) => Ok(true),
        Node::Pad => Ok(!something_follows(c, i)),
        Node::Null => Ok(true),
        Node::Field { unit: _, count: _ } => Ok(true),
        Node::Rest => Ok(!something_follows(c, i)),
        Node::Seq(_) => Ok(true),
        Node::Choice(parts) => Ok(choice_is_apart(alloc, desc, c, i, parts)?),
        Node::Times { count: _, part } => Ok(!nullable(c, *part)),
        Node::Many(part) => Ok(is_firm(c, *part) && !turns_clash(c, i, *part)),
        Node::Trunc(_) => Ok(!something_follows(c, i)),
        Node::Window {
            unit: _,
            count: _,
            part: _,
        } => Ok(true),
        Node::Named { label: _, part: _ } => Ok(true),
    }
}
