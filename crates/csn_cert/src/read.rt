//! Certificates read from their texts.

ghost use Rattle.std.specs.Prelude.{◌≡◌, ◌<◌, ◌≤◌, ◌↔◌, ◌++◌, ◌∷◌, List, length, flat_map, IsTrue, IfSome, IfOk, IfErr};
ghost use Rattle.csn_cert.specs.declared.read.TheConstants.{MOST_TEXT};
ghost use Rattle.csn_cert.specs.PatternText.{ComesBefore, pattern_text};
ghost use Rattle.csn_cert.specs.CertificateV.{NodeV, IsPattern, IsPosition, IsNode, IsCertificate};
ghost use Rattle.csn_cert.specs.CertificateText.{CertificateText, position_text, node_text, nodes_text};
ghost use Rattle.csn_cert.specs.Growing.{last_of};
ghost use Rattle.csn_cert.specs.Reading.{Refuses, Stands, Lacks, Anything, BeginsNoMark, BeginsNoPosition, IsNoText};
ghost use Rattle.csn_cert.specs.Reading.{IsNumber, number_text, IsOctet, octet_text, IsWord, word_text, IsEnd};
ghost use Rattle.csn_cert.specs.Reading.{end_text, ArePatterns, patterns_line, ArePositions};

use crate::certificate::{Certificate, NodeClaim, Position};
use crate::cursor::Cursor;
use crate::fault::CertFault;
use crate::pattern::{MOST_MARKS, Pattern};
use csn_desc::MOST_NODES;
use itoa::Buffer;
use std::alloc::Global;
use std::cmp::Ordering;

/// The most bytes of a text that is read.
pub const MOST_TEXT: usize = 16_777_216;

/// The certificate with a text.
pub fn read_certificate(alloc: Global, text: &[u8]) -> Result<Certificate, CertFault>
    requires { length text.now ≤ MOST_TEXT }
    ensures ok { IfOk result (λ c. CertificateText c text.now) }
    ensures refused { IfErr result (λ fault. Refuses fault (IsNoText text.now)) }
{
    let mut rest = Cursor::new(text);
    rest.expect(b"csn-cert ")?;
    let count = rest.line()?;
    let nodes = read_nodes(alloc, &mut rest)?;
    let mut buffer = Buffer::new();
    if count == buffer.format(nodes.len()).as_bytes() {
        Ok(Certificate::of(nodes))
    } else {
        Err(CertFault::Text)
    }
}

// The nodes of the rest of a text.
fn read_nodes(alloc: Global, text: &mut Cursor) -> Result<Vec<NodeClaim>, CertFault>
    requires { length text.old ≤ MOST_TEXT }
    ensures ok { IfOk result (λ nodes. text.old ≡ nodes_text 0 nodes.items) }
    ensures well_formed { IfOk result (λ nodes. IsCertificate nodes.items) }
    ensures refused { IfErr result (λ fault. Refuses fault ((c : List NodeV) → IsCertificate c → text.old ≡ nodes_text 0 c → ⊥)) }
{
    let mut nodes = Vec::new(alloc);
    'nodes: while !text.is_empty() {
        if nodes.len() == MOST_NODES as usize {
            return Err(CertFault::Text);
        }
        let node = read_node(alloc, text, nodes.len() as u16)?;
        nodes.push(node)?;
    }
    Ok(nodes)
}

// The node with a number.
fn read_node(alloc: Global, text: &mut Cursor, number: u16) -> Result<NodeClaim, CertFault>
    requires { length text.old ≤ MOST_TEXT }
    ensures ok { IfOk result (λ n. Stands IsNode BeginsNoPosition (node_text number) text.old n text.new) }
    ensures refused { IfErr result (λ fault. Refuses fault (Lacks IsNode BeginsNoPosition (node_text number) text.old)) }
{
    text.expect(b"node ")?;
    let mut buffer = Buffer::new();
    text.expect(buffer.format(number).as_bytes())?;
    let nullable = read_number(text, 1)?;
    let follow = read_number(text, 24)?;
    text.expect(b"\n")?;
    let positions = read_positions(alloc, text)?;
    Ok(NodeClaim {
        nullable: nullable == 1,
        follow,
        positions,
    })
}

// All positions that stand here.
fn read_positions(alloc: Global, text: &mut Cursor) -> Result<Vec<Position>, CertFault>
    requires { length text.old ≤ MOST_TEXT }
    ensures ok { IfOk result (λ ps. Stands ArePositions BeginsNoPosition (flat_map position_text) text.old ps.items text.new) }
    ensures refused { IfErr result (λ fault. Refuses fault (Lacks ArePositions BeginsNoPosition (flat_map position_text) text.old)) }
{
    let mut positions = Vec::new(alloc);
    'positions: while text.begins_position() {
        let position = read_position(alloc, text)?;
        if !comes_behind(position.octet, &positions) {
            return Err(CertFault::Text);
        }
        positions.push(position)?;
    }
    Ok(positions)
}

// Whether an octet position is above all of these.
fn comes_behind(octet: u8, positions: &[Position]) -> bool
    ensures { IsTrue result ↔ IfSome (last_of positions.now) (λ p. p.octet < octet) }
{
    match positions.last() {
        Some(last) => last.octet < octet,
        None => true,
    }
}

// The line of a position.
fn read_position(alloc: Global, text: &mut Cursor) -> Result<Position, CertFault>
    requires { length text.old ≤ MOST_TEXT }
    ensures ok { IfOk result (λ p. Stands IsPosition Anything position_text text.old p text.new) }
    ensures refused { IfErr result (λ fault. Refuses fault (Lacks IsPosition Anything position_text text.old)) }
{
    let octet = read_octet(text)?;
    let ends = read_number(text, 8)?;
    let start = read_number(text, 2)?;
    text.expect(b" ")?;
    let patterns = read_patterns(alloc, text)?;
    Ok(Position {
        octet,
        ends: ends as u8,
        start: start as u8,
        patterns,
    })
}

// The word before an octet position, and this.
fn read_octet(text: &mut Cursor) -> Result<u8, CertFault>
    ensures ok { IfOk result (λ octet. Stands IsOctet Anything octet_text text.old octet text.new) }
    ensures refused { IfErr result (λ fault. Refuses fault (Lacks IsOctet Anything octet_text text.old)) }
{
    text.expect(b"at ")?;
    match text.byte() {
        Some(digit @ b'0'..=b'7') => Ok(digit - b'0'),
        _ => Err(CertFault::Text),
    }
}

// A space and so many binary digits.
fn read_number(text: &mut Cursor, count: u8) -> Result<u32, CertFault>
    requires { count ≤ 24 }
    ensures ok { IfOk result (λ number. Stands (IsNumber count) Anything (number_text count) text.old number text.new) }
    ensures refused { IfErr result (λ fault. Refuses fault (Lacks (IsNumber count) Anything (number_text count) text.old)) }
{
    text.expect(b" ")?;
    let mut number = 0u32;
    for k in 0..count {
        let digit = text.digit()?;
        number = 2 * number + digit as u32;
    }
    Ok(number)
}

// The patterns of a position, and the line feed behind them.
fn read_patterns(alloc: Global, text: &mut Cursor) -> Result<Vec<Pattern>, CertFault>
    requires { length text.old ≤ MOST_TEXT }
    ensures ok { IfOk result (λ ps. Stands ArePatterns Anything patterns_line text.old ps.items text.new) }
    ensures few { IfOk result (λ ps. length ps.items ≤ MOST_TEXT) }
    ensures refused { IfErr result (λ fault. Refuses fault (Lacks ArePatterns Anything patterns_line text.old)) }
{
    let mut patterns = Vec::new(alloc);
    if text.take(b"-") {
        text.expect(b"\n")?;
        return Ok(patterns);
    }
    let mut last = read_pattern(text)?;
    patterns.push(last)?;
    'patterns: while text.take(b",") {
        let next = read_pattern(text)?;
        if !comes_before(&last, &next) {
            return Err(CertFault::Text);
        }
        patterns.push(next)?;
        last = next;
    }
    text.expect(b"\n")?;
    Ok(patterns)
}

// Whether the text of a pattern stands before that of another.
fn comes_before(first: &Pattern, second: &Pattern) -> bool
    ensures { IsTrue result ↔ ComesBefore first.now second.now }
{
    let first = first.text();
    let second = second.text();
    match first.as_slice().cmp(&second.as_slice()) {
        Ordering::Less => true,
        Ordering::Equal | Ordering::Greater => false,
    }
}

// A pattern.
fn read_pattern(text: &mut Cursor) -> Result<Pattern, CertFault>
    ensures ok { IfOk result (λ p. Stands IsPattern Anything pattern_text text.old p text.new) }
    ensures refused { IfErr result (λ fault. Refuses fault (Lacks IsPattern Anything pattern_text text.old)) }
{
    if text.take(b"e") {
        let whole = read_end(text)?;
        return Ok(Pattern::new(whole));
    }
    let marks = read_marks(text)?;
    let whole = read_end(text)?;
    Ok(marks.with_end(whole))
}

// All marks that stand here, at least one.
fn read_marks(text: &mut Cursor) -> Result<Pattern, CertFault>
    ensures ok { IfOk result (λ p. Stands IsWord BeginsNoMark word_text text.old p.marks text.new) }
    ensures refused { IfErr result (λ fault. Refuses fault (Lacks IsWord BeginsNoMark word_text text.old)) }
{
    let mut marks = Pattern::new(true);
    while let Some(mark) = text.mark() {
        if marks.len() as usize == MOST_MARKS {
            return Err(CertFault::Text);
        }
        marks.push(mark);
    }
    if marks.len() == 0 {
        return Err(CertFault::Text);
    }
    Ok(marks)
}

// What ends a pattern: whether it is whole.
fn read_end(text: &mut Cursor) -> Result<bool, CertFault>
    ensures ok { IfOk result (λ whole. Stands IsEnd Anything end_text text.old whole text.new) }
    ensures refused { IfErr result (λ fault. Refuses fault (Lacks IsEnd Anything end_text text.old)) }
{
    match text.byte() {
        Some(b'!') => Ok(true),
        Some(b'+') => Ok(false),
        _ => Err(CertFault::Text),
    }
}
