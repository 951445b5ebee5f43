//! The rule of keys: some claimed pattern covers each that the equation of a node makes.

ghost use Rattle.std.specs.Prelude.{◌≡◌, ◌<◌, ◌≤◌, ◌⊎◌, ◌↔◌, ℕ, length, slice_get, IsTrue, IsSome, IfOk, Contains};
ghost use Rattle.csn_cert.specs.PatternV.{PatternV};
ghost use Rattle.csn_cert.specs.CertificateV.{IsCertificate};
ghost use Rattle.csn_cert.specs.Growing.{claimed};
ghost use Rattle.csn_good.specs.Covering.{AreCovered, PartIsCovered, EachIsCovered, MadeIsCoveredAt, MadeIsCovered, LeafIsCovered};
ghost use Rattle.csn_good.specs.ClaimedSets.{patterns_at, claims_of};
ghost use Rattle.csn_good.specs.Patterns.{CoverMarks, Covers, IsCovered};
ghost use Rattle.csn_good.specs.Good.{KeepsKeys};
ghost use Rattle.csn_good.specs.Octets.{NodeWithin, PartsWithin};
ghost use Rattle.csn_good.specs.Made.{MadeAt};

use crate::leaf::leaf_pattern;
use crate::made::{Made, made_of_parts, made_of_times};
use crate::pattern_set::{PatternSet, pattern_of};
use csn_bits::NoMemory;
use csn_cert::{Certificate, Mark, Pattern};
use csn_desc::{Count, Desc, Node, Parts};
use std::alloc::Global;

/// So many patterns are gone through as soon as one is looked for among them.
const FEW: u32 = 8;

/// Whether one mark covers another.
fn mark_covers(wide: Mark, mark: Mark) -> bool
    ensures { IsTrue result ↔ ((wide ≡ Mark.Any) ⊎ (wide ≡ mark)) }
{
    wide == Mark::Any || wide == mark
}

/// Whether each mark of a pattern covers that of another, which has as many.
fn marks_cover(wide: Pattern, pattern: Pattern) -> bool
    requires { length wide.marks ≡ length pattern.marks }
    ensures { IsTrue result ↔ CoverMarks wide.marks pattern.marks }
{
    for at in 0..wide.len() {
        let own = wide.get(at);
        let other = pattern.get(at);
        if !mark_covers(own, other) {
            return false;
        }
    }
    true
}

/// Whether one pattern covers another.
#[tactic(auto, using(crate::proofs::Covered::sizes_same))]
fn covers(wide: Pattern, pattern: Pattern) -> bool
    ensures { IsTrue result ↔ Covers wide pattern }
{
    if wide.len() != pattern.len() {
        return false;
    }
    wide.whole() == pattern.whole() && marks_cover(wide, pattern)
}

/// Whether the claimed patterns of part `part` are covered at each octet position that node `i` has.
fn part_is_covered(c: &Certificate, i: u16, part: u16) -> bool
    requires node { i < length c.now }
    requires part { part < length c.now }
    ensures { IsTrue result ↔ PartIsCovered c.now i part }
{
    for octet in 0..8 {
        if c.has(i, octet) && !part_is_covered_at(c, i, part, octet) {
            return false;
        }
    }
    true
}

/// Whether one is met that covers this pattern where it is looked for among the claimed patterns of node `i` by the
/// order of their texts. If not, another may cover it all the same.
fn is_found(c: &Certificate, i: u16, octet: u8, pattern: Pattern) -> bool
    requires octet { octet ≤ 7 }
    requires has { IsSome (claimed c.now i octet) }
    ensures { IsTrue result → IsCovered c.now i octet pattern }
{
    let mut low = 0;
    let mut high = c.patterns(i, octet);
    while low < high {
        let middle = low + (high - low) / 2;
        let own = c.pattern_at(i, octet, middle);
        if covers(own, pattern) {
            return true;
        }
        if own < pattern {
            low = middle + 1;
        } else {
            high = middle;
        }
    }
    false
}

/// Whether some claimed pattern of node `i` at the octet position covers this one.
fn is_covered(c: &Certificate, i: u16, octet: u8, pattern: Pattern) -> bool
    requires node { i < length c.now }
    requires octet { octet ≤ 7 }
    ensures { IsTrue result ↔ IsCovered c.now i octet pattern }
{
    if !c.has(i, octet) {
        return false;
    }
    if c.patterns(i, octet) > FEW && is_found(c, i, octet, pattern) {
        return true;
    }
    for k in 0..c.patterns(i, octet) {
        if covers(c.pattern_at(i, octet, k), pattern) {
            return true;
        }
    }
    false
}

/// Whether so is each claimed pattern of part `part` there.
fn part_is_covered_at(c: &Certificate, i: u16, part: u16, octet: u8) -> bool
    requires node { i < length c.now }
    requires octet { octet ≤ 7 }
    requires part { part < length c.now }
    ensures { IsTrue result ↔ AreCovered c.now i octet (patterns_at c.now part octet) }
{
    if !c.has(part, octet) {
        return true;
    }
    for k in 0..c.patterns(part, octet) {
        if !is_covered(c, i, octet, c.pattern_at(part, octet, k)) {
            return false;
        }
    }
    true
}

/// Whether so are those of each part, at each octet position that the node has.
fn each_is_covered(c: &Certificate, i: u16, parts: &Parts) -> bool
    requires node { i < length c.now }
    requires parts { PartsWithin parts.now (length c.now) }
    ensures { IsTrue result ↔ EachIsCovered c.now i parts.now }
{
    for at in 0..parts.len() {
        if !part_is_covered(c, i, parts.get(at)) {
            return false;
        }
    }
    true
}

/// Whether so are the patterns of a set at the octet position.
fn are_covered(
    alloc: Global,
    c: &Certificate,
    i: u16,
    octet: u8,
    patterns: &PatternSet,
) -> Result<bool, NoMemory>
    requires node { i < length c.now }
    requires octet { octet ≤ 7 }
    ensures { IfOk result (λ covered. IsTrue covered ↔ AreCovered c.now i octet patterns.now) }
{
    let numbers = patterns.numbers(alloc)?;
    for number in numbers.as_slice() {
        if !is_covered(c, i, octet, pattern_of(*number)) {
            return Ok(false);
        }
    }
    Ok(true)
}

/// Whether so are the patterns that are made from the octet position on, where node `i` has it.
fn made_is_covered_at(
    alloc: Global,
    c: &Certificate,
    i: u16,
    made: &Made,
    octet: u8,
) -> Result<bool, NoMemory>
    requires node { i < length c.now }
    requires made { length made.now.at.items ≡ 8 }
    requires octet { octet ≤ 7 }
    ensures { IfOk result (λ covered. IsTrue covered ↔ MadeIsCoveredAt c.now i made.now.at.items octet) }
{
    if !c.has(i, octet) {
        return Ok(true);
    }
    let covered = are_covered(alloc, c, i, octet, made.set_at(octet))?;
    Ok(covered)
}

/// Whether so are they from each octet position on.
fn made_is_covered(alloc: Global, c: &Certificate, i: u16, made: &Made) -> Result<bool, NoMemory>
    requires node { i < length c.now }
    requires made { length made.now.at.items ≡ 8 }
    ensures { IfOk result (λ covered. IsTrue covered ↔ MadeIsCovered c.now i made.now.at.items) }
{
    for octet in 0..8 {
        let covered = made_is_covered_at(alloc, c, i, made, octet)?;
        if !covered {
            return Ok(false);
        }
    }
    Ok(true)
}

/// Whether the pattern of such a node is covered, at each octet position that it has.
fn leaf_is_covered(desc: &Desc, c: &Certificate, i: u16, node: &Node) -> bool
    requires { i < length c.now }
    ensures { IsTrue result ↔ LeafIsCovered desc.now.reading c.now i node.now }
{
    for octet in 0..8 {
        if c.has(i, octet) && !is_covered(c, i, octet, leaf_pattern(desc.reading(), node, octet)) {
            return false;
        }
    }
    true
}

/// Whether the patterns of so many turns of part `part` are covered.
fn turns_are_covered(
    alloc: Global,
    desc: &Desc,
    c: &Certificate,
    i: u16,
    node: &Node,
    count: Count,
    part: u16,
) -> Result<bool, NoMemory>
    requires certificate { IsCertificate c.now }
    requires node { i < length c.now }
    requires part { part < length c.now }
    requires is { node.now ≡ Node.Times count part }
    ensures { IfOk result (λ keeps. IsTrue keeps ↔ KeepsKeys desc.now c.now i node.now) }
{
    match count {
        Count::Fixed(n) => {
            let made = made_of_times(alloc, c, part, n)?;
            let covered = made_is_covered(alloc, c, i, &made)?;
            Ok(covered)
        }
        Count::Counted {
            m: _,
            field: _,
            c: _,
        } => Ok(leaf_is_covered(desc, c, i, node)),
    }
}

/// Rule 5: at each octet position that it has, some claimed pattern of node `i` covers each that its equation makes.
pub(crate) fn keeps_keys(
    alloc: Global,
    desc: &Desc,
    c: &Certificate,
    i: u16,
    node: &Node,
) -> Result<bool, NoMemory>
    requires certificate { IsCertificate c.now }
    requires node { i < length c.now }
    requires parts { NodeWithin node.now (length c.now) }
    ensures { IfOk result (λ keeps. IsTrue keeps ↔ KeepsKeys desc.now c.now i node.now) }
{
    match node {
        Node::Seq(parts) => {
            let made = made_of_parts(alloc, c, parts)?;
            let covered = made_is_covered(alloc, c, i, &made)?;
            Ok(covered)
        }
        Node::Choice(parts) => Ok(each_is_covered(c, i, parts)),
        Node::Times { count, part } => turns_are_covered(alloc, desc, c, i, node, *count, *part),
        Node::Named { label: _, part } => Ok(part_is_covered(c, i, *part)),
        _ => Ok(leaf_is_covered(desc, c, i, node)),
    }
}
