//! The columns of a line.

ghost use Rattle.std.specs.Prelude.{◌≡◌, ◌++◌, List, ℕ, OnOk};
ghost use Rattle.csn_bits.specs.Line.{written};

use csn_bits::{Bits, NoMemory};
use csn_plan::push_number;
use csn_reasons::NodeFacts;
use std::alloc::Global;

/// Writes a block line.
pub(crate) fn push_block(alloc: Global, block: &Bits, out: &mut Vec<u8>) -> Result<(), NoMemory>
    ensures { OnOk result (out.new.items ≡ out.old.items ++ written block.now) }
{
    let line = block.to_hex_line(alloc)?;
    out.extend_from_slice(&line)?;
    Ok(())
}

/// Writes where a node is, its kind, and what is told of it, each behind a tab, and then the path of labels to it.
pub(crate) fn push_about(
    facts: &[NodeFacts],
    node: u16,
    what: &[u8],
    out: &mut Vec<u8>,
) -> Result<(), NoMemory>
    ensures { OnOk result ((more : List ℕ) × (out.new.items ≡ out.old.items ++ more)) }
{
    let Some(fact) = facts.get(usize::from(node)) else {
        return Ok(());
    };
    out.push(b'\t')?;
    push_number(out, fact.spot.line)?;
    out.push(b':')?;
    push_number(out, fact.spot.column)?;
    out.push(b'\t')?;
    out.extend_from_slice(fact.kind.name().as_bytes())?;
    out.push(b'\t')?;
    out.extend_from_slice(what)?;
    out.push(b'\t')?;
    out.extend_from_slice(&fact.path)?;
    Ok(())
}
