//! What is told of the nodes of a rule, as lines.

ghost use Rattle.std.specs.Prelude.{◌≡◌, ◌≤◌, ◌++◌, ℕ, List, Option, IfOk, OnOk, length};
ghost use Rattle.csn_plan.specs.declared.compiling.TheConstants.{MOST_DESCRIPTION};
ghost use Rattle.csn_reasons.specs.Facts.{AreFacts, IsListing, bits_text, node_line, node_lines};
ghost use Rattle.csn_reasons.specs.declared.facts.NodeFacts.{NodeFacts};

use crate::asked::Asked;
use crate::checking::tell_reason;
use crate::described::{Described, describe};
use crate::facts::{NodeFacts, fact_of};
use crate::nodes::parents_of;
use crate::sizes::constants_of;
use crate::telling::{Told, words};
use csn_bits::NoMemory;
use csn_plan::{Ended, push_number};
use itoa::Buffer;
use std::alloc::Global;

/// Writes a line for each node of the rule, whether it is certified or not: its number, `LINE:COLUMN` of the
/// part that gives it, its kind, how many bits it has where they are always as many (else `-`), and the path of
/// labels to it, with tabs between. Where the rule has no nodes, it writes what `csn_cli check` answers.
pub fn list_nodes(alloc: Global, asked: Asked<'_>, out: &mut Vec<u8>) -> Result<Ended, NoMemory>
    requires fits { length asked.text.now ≤ MOST_DESCRIPTION }
    ensures lines { IfOk result (λ ended. (lines : List ℕ) × (out.new.items ≡ out.old.items ++ lines)
        × IsListing asked.entry.text.now asked.entry.name.now asked.entry.reading lines ended) }
{
    match describe(alloc, asked) {
        Ok(found) => list(alloc, asked, &found, out),
        Err(reason) => tell_reason(&reason, b"", out),
    }
}

/// Writes the lines of the nodes.
fn list(
    alloc: Global,
    asked: Asked<'_>,
    found: &Described,
    out: &mut Vec<u8>,
) -> Result<Ended, NoMemory>
    requires fits { length asked.text.now ≤ MOST_DESCRIPTION }
    requires all { length found.now.origins.items ≡ length found.now.desc.nodes }
    ensures { IfOk result (λ ended. (ended ≡ Ended.Done) × (bits : ℕ → Option ℕ) × (facts : List NodeFacts)
        × (length facts ≡ length found.now.desc.nodes) × AreFacts asked.entry.text.now found.now.desc.nodes found.now.origins.items facts
        × (out.new.items ≡ out.old.items ++ node_lines bits 0 facts)) }
{
    let parents = parents_of(alloc, &found.desc)?;
    let bits = constants_of(alloc, &found.desc)?;
    for number in 0..found.desc.len() {
        let told = fact_of(alloc, asked, found, &parents, number)?;
        push_line(number, bits[number as usize], &told, out)?;
    }
    Ok(Ended::Done)
}

/// Writes the line of a node.
fn push_line(number: u16, bits: Option<u64>, told: &NodeFacts, out: &mut Vec<u8>) -> Told
    ensures { OnOk result (out.new.items ≡ out.old.items ++ node_line number bits told.now) }
{
    push_number(out, number as u32)?;
    out.push(b'\t')?;
    push_number(out, told.spot.line)?;
    out.push(b':')?;
    push_number(out, told.spot.column)?;
    out.push(b'\t')?;
    words(out, told.kind.name())?;
    out.push(b'\t')?;
    push_bits(bits, out)?;
    out.push(b'\t')?;
    out.extend_from_slice(told.path.as_slice())?;
    out.push(b'\n')?;
    Ok(())
}

/// Writes how many bits a node has, if they are always as many.
fn push_bits(bits: Option<u64>, out: &mut Vec<u8>) -> Told
    ensures { OnOk result (out.new.items ≡ out.old.items ++ bits_text bits) }
{
    match bits {
        Some(bits) => {
            let mut buffer = Buffer::new();
            out.extend_from_slice(buffer.format(bits).as_bytes())?;
        }
        None => out.push(b'-')?,
    }
    Ok(())
}
