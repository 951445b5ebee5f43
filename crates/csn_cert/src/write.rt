ghost use Rattle.std.specs.Prelude.{◌≡◌, ◌+◌, ◌≤◌, ◌<◌, ◌++◌, ◌∷◌, [], codes, IfOk, OnOk};
ghost use Rattle.std.specs.Fmt.{decimal};
ghost use Rattle.csn_cert.specs.CertificateV.{IsCertificate, IsNode, IsPosition};
ghost use Rattle.csn_cert.specs.PatternText.{patterns_text, more_patterns_text};
ghost use Rattle.csn_cert.specs.CertificateText.{CertificateText, digits_text, position_text, node_line, node_text, nodes_text, nullable_character};

use crate::certificate::{Certificate, NodeClaim, Position};
use crate::pattern::Pattern;
use csn_bits::NoMemory;
use itoa::Buffer;
use std::alloc::Global;

/// The text of a certificate.
pub fn write_certificate(alloc: Global, c: &Certificate) -> Result<Vec<u8>, NoMemory>
    ensures { IfOk result (λ text. CertificateText c.now text.items) }
{
    let mut out = Vec::from_slice(alloc, b"csn-cert ")?;
    push_number(&mut out, c.len())?;
    out.push(b'\n')?;
    push_nodes(&mut out, c)?;
    Ok(out)
}

// Adds the lines of all nodes.
fn push_nodes(out: &mut Vec<u8>, c: &Certificate) -> Result<(), NoMemory>
    requires { IsCertificate c.now }
    ensures { OnOk result (out.new.items ≡ out.old.items ++ nodes_text 0 c.now) }
{
    for (number, node) in c.claims().iter().enumerate() {
        push_node(out, number as u16, node)?;
    }
    Ok(())
}

// Adds the lines of a node.
fn push_node(out: &mut Vec<u8>, number: u16, node: &NodeClaim) -> Result<(), NoMemory>
    requires { IsNode node.now }
    ensures { OnOk result (out.new.items ≡ out.old.items ++ node_text number node.now) }
{
    push_node_line(out, number, node)?;
    for position in &node.positions {
        push_position(out, position)?;
    }
    Ok(())
}

// Adds the line of a node alone.
fn push_node_line(out: &mut Vec<u8>, number: u16, node: &NodeClaim) -> Result<(), NoMemory>
    ensures { OnOk result (out.new.items ≡ out.old.items ++ (node_line number node.now ++ 10 ∷ [])) }
{
    push_node_number(out, number)?;
    push_nullable(out, node.nullable)?;
    push_digits(out, 24, node.follow)?;
    Ok(out.push(b'\n')?)
}

// Adds the number of a node between a word and a space.
fn push_node_number(out: &mut Vec<u8>, number: u16) -> Result<(), NoMemory>
    ensures { OnOk result (out.new.items ≡ out.old.items ++ (codes "node " ++ decimal number ++ codes " ")) }
{
    out.extend_from_slice(b"node ")?;
    push_number(out, number)?;
    Ok(out.push(b' ')?)
}

// Adds the digit that tells whether a node is nullable, and a space.
fn push_nullable(out: &mut Vec<u8>, nullable: bool) -> Result<(), NoMemory>
    ensures { OnOk result (out.new.items ≡ out.old.items ++ nullable_character nullable ∷ codes " ") }
{
    out.push(nullable_character(nullable))?;
    Ok(out.push(b' ')?)
}

// The digit that tells whether a node is nullable.
fn nullable_character(nullable: bool) -> u8
    ensures { result ≡ nullable_character nullable }
{
    if nullable { b'1' } else { b'0' }
}

// Adds the line of a position.
fn push_position(out: &mut Vec<u8>, position: &Position) -> Result<(), NoMemory>
    requires { IsPosition position.now }
    ensures { OnOk result (out.new.items ≡ out.old.items ++ position_text position.now) }
{
    push_octet(out, position.octet)?;
    push_sets(out, position)?;
    push_patterns(out, &position.patterns)?;
    Ok(out.push(b'\n')?)
}

// Adds an octet position between a word and a space.
fn push_octet(out: &mut Vec<u8>, octet: u8) -> Result<(), NoMemory>
    requires { octet ≤ 7 }
    ensures { OnOk result (out.new.items ≡ out.old.items ++ (codes "at " ++ (48 + octet) ∷ codes " ")) }
{
    out.extend_from_slice(b"at ")?;
    out.push(b'0' + octet)?;
    Ok(out.push(b' ')?)
}

// Adds where the strings of a position end and how they start, with a space behind each.
fn push_sets(out: &mut Vec<u8>, position: &Position) -> Result<(), NoMemory>
    ensures { OnOk result (out.new.items ≡ out.old.items ++ (digits_text 8 position.now.ends ++ codes " " ++ digits_text 2 position.now.start ++ codes " ")) }
{
    push_digits(out, 8, position.ends as u32)?;
    out.push(b' ')?;
    push_digits(out, 2, position.start as u32)?;
    Ok(out.push(b' ')?)
}

// Adds the texts of patterns.
fn push_patterns(out: &mut Vec<u8>, patterns: &[Pattern]) -> Result<(), NoMemory>
    ensures { OnOk result (out.new.items ≡ out.old.items ++ patterns_text patterns.now) }
{
    let Some((first, rest)) = patterns.split_first() else {
        out.push(b'-')?;
        return Ok(());
    };
    out.extend_from_slice(&first.text())?;
    push_more_patterns(out, rest)
}

// Adds the texts of patterns, each behind a comma.
fn push_more_patterns(out: &mut Vec<u8>, patterns: &[Pattern]) -> Result<(), NoMemory>
    ensures { OnOk result (out.new.items ≡ out.old.items ++ more_patterns_text patterns.now) }
{
    for pattern in patterns {
        out.push(b',')?;
        out.extend_from_slice(&pattern.text())?;
    }
    Ok(())
}

// Adds the last so many binary digits of a number.
fn push_digits(out: &mut Vec<u8>, count: u8, number: u32) -> Result<(), NoMemory>
    requires { count ≤ 24 }
    ensures { OnOk result (out.new.items ≡ out.old.items ++ digits_text count number) }
{
    let mut left = count;
    while left > 0 {
        left -= 1;
        out.push(b'0' + ((number >> left) % 2) as u8)?;
    }
    Ok(())
}

// Adds a number in decimal.
fn push_number(out: &mut Vec<u8>, number: u16) -> Result<(), NoMemory>
    ensures { OnOk result (out.new.items ≡ out.old.items ++ decimal number) }
{
    let mut buffer = Buffer::new();
    let digits = buffer.format(number).as_bytes();
    out.extend_from_slice(digits)?;
    Ok(())
}
