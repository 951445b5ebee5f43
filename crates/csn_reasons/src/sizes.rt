//! How many bits nodes have.

ghost use Rattle.std.specs.Prelude.{◌≡◌, IfOk, length};

use crate::nodes::part_of;
use csn_bits::NoMemory;
use csn_desc::{Count, Desc, MOST_NODES, Node};
use std::alloc::Global;

/// How many bits a node has: at least, and at most where that is known.
#[derive(Clone, Copy)]
pub(crate) struct Size {
    pub least: u64,
    pub most: Option<u64>,
}

/// So many bits, and no other number.
fn exactly(bits: u64) -> Size {
    Size {
        least: bits,
        most: Some(bits),
    }
}

/// So many bits or more.
fn from(bits: u64) -> Size {
    Size {
        least: bits,
        most: None,
    }
}

/// The size of a node by its number, where it is known.
pub(crate) fn size_at(sizes: &[Size], node: u16) -> Size {
    match sizes.get(node as usize) {
        Some(size) => *size,
        None => from(0),
    }
}

/// Both one behind the other.
fn both(one: Size, other: Size) -> Size {
    Size {
        least: one.least.saturating_add(other.least),
        most: match (one.most, other.most) {
            (Some(a), Some(b)) => a.checked_add(b),
            _ => None,
        },
    }
}

/// One or the other.
fn either(one: Size, other: Size) -> Size {
    Size {
        least: one.least.min(other.least),
        most: match (one.most, other.most) {
            (Some(a), Some(b)) => Some(a.max(b)),
            _ => None,
        },
    }
}

/// As many times as counted. A counted field that is 0 gives the least number.
fn times(count: Count, size: Size) -> Size {
    match count {
        Count::Fixed(n) => Size {
            least: size.least.saturating_mul(n as u64),
            most: match size.most {
                Some(most) => most.checked_mul(n as u64),
                None => None,
            },
        },
        Count::Counted { c, .. } => from(size.least.saturating_mul(c as u64)),
    }
}

/// The size of a node, where those of its parts are known.
fn size_of(node: &Node, sizes: &[Size]) -> Size {
    match node {
        Node::Lits(run) => exactly(run.len() as u64),
        Node::Spare(_) => exactly(1),
        Node::Pad => from(1),
        Node::Null => exactly(0),
        Node::Field { unit, count } => times(*count, exactly(*unit as u64)),
        Node::Rest => from(0),
        Node::Seq(_) => of_all(node, sizes),
        Node::Choice(_) => of_any(node, sizes),
        Node::Times { count, part } => times(*count, size_at(sizes, *part)),
        Node::Many(_) => from(0),
        Node::Trunc(_) => from(0),
        Node::Window { unit, count, .. } => times(*count, exactly(*unit as u64)),
        Node::Named { part, .. } => size_at(sizes, *part),
    }
}

/// The size of all parts of a node.
fn of_all(node: &Node, sizes: &[Size]) -> Size {
    let mut size = exactly(0);
    for at in 0..MOST_NODES {
        match part_of(node, at) {
            Some(part) => size = both(size, size_at(sizes, part)),
            None => return size,
        }
    }
    size
}

/// The size of any part of a node.
fn of_any(node: &Node, sizes: &[Size]) -> Size {
    let mut found: Option<Size> = None;
    for at in 0..MOST_NODES {
        match part_of(node, at) {
            Some(part) => {
                let size = size_at(sizes, part);
                found = match found {
                    Some(other) => Some(either(other, size)),
                    None => Some(size),
                };
            }
            None => break,
        }
    }
    match found {
        Some(size) => size,
        None => from(0),
    }
}

/// The sizes of all nodes of a description.
pub(crate) fn sizes_of(alloc: Global, desc: &Desc) -> Result<Vec<Size>, NoMemory> {
    let mut sizes = Vec::new(alloc);
    for _ in 0..desc.len() {
        sizes.push(from(0))?;
    }
    for number in (0..desc.len()).rev() {
        let size = size_of(desc.node(number), sizes.as_slice());
        if (number as usize) < sizes.len() {
            sizes[number as usize] = size;
        }
    }
    Ok(sizes)
}

/// How many bits each node of a description has, where they are always as many.
pub(crate) fn constants_of(alloc: Global, desc: &Desc) -> Result<Vec<Option<u64>>, NoMemory>
    ensures { IfOk result (λ bits. length bits.items ≡ length desc.now.nodes) }
{
    let sizes = sizes_of(alloc, desc)?;
    let mut bits = Vec::new(alloc);
    for number in 0..desc.len() {
        bits.push(constant(size_at(&sizes, number)))?;
    }
    Ok(bits)
}

/// So many bits, where it is always as many.
fn constant(size: Size) -> Option<u64> {
    match size.most {
        Some(most) if most == size.least => Some(most),
        _ => None,
    }
}
