//! The shortest bits that lead to a node, and which bits a node may begin with.

use crate::nodes::{node_at, part_of, place_in};
use crate::sizes::{Size, size_at};
use csn_bits::NoMemory;
use csn_desc::{Count, Desc, MOST_NODES, Node, Run, Symbol};

/// The most bits of an example.
const MOST_EXAMPLE: usize = 4_096;

/// The most nodes inside one another.
const MOST_DEEP: u8 = 64;

/// Whether an example was found.
type Found = Result<bool, NoMemory>;

/// Makes an example of a description.
#[derive(Clone, Copy)]
pub(crate) struct Example<'a> {
    pub desc: &'a Desc,
    pub sizes: &'a [Size],
}

/// Adds the bit that a symbol stands for.
fn push_symbol(symbol: Symbol, bits: &mut Vec<u8>) -> Found {
    if bits.len() >= MOST_EXAMPLE {
        return Ok(false);
    }
    bits.push(symbol.bit((bits.len() % 8) as u32))?;
    Ok(true)
}

/// Adds the bits of a literal.
fn push_run(run: &Run, bits: &mut Vec<u8>) -> Found {
    for at in 0..run.len() {
        if !push_symbol(*run.get(at), bits)? {
            return Ok(false);
        }
    }
    Ok(true)
}

/// How many times a count is at least, where the field that it stands on is 0.
fn least_times(count: Count) -> u32 {
    match count {
        Count::Fixed(n) => n,
        Count::Counted { c, .. } => c,
    }
}

/// Adds so many zeros.
fn push_zeros(many: u32, bits: &mut Vec<u8>) -> Found {
    for _ in 0..many {
        if !push_symbol(Symbol::Zero, bits)? {
            return Ok(false);
        }
    }
    Ok(true)
}

impl<'a> Example<'a> {
    /// The part of a choice that has fewest bits.
    fn shortest(&self, node: &Node) -> Option<u16> {
        let mut best: Option<u16> = None;
        for at in 0..MOST_NODES {
            let Some(part) = part_of(node, at) else {
                break;
            };
            let shorter = match best {
                Some(other) => {
                    size_at(self.sizes, part).least < size_at(self.sizes, other).least
                }
                None => true,
            };
            if shorter {
                best = Some(part);
            }
        }
        best
    }

    /// Adds the fewest bits that a node has, if they are known; `left` nodes may be inside it.
    #[cycle(least)]
    fn push_least(&self, left: u8, number: u16, bits: &mut Vec<u8>) -> Found {
        if left == 0 {
            return Ok(false);
        }
        let Some(node) = node_at(self.desc, number) else {
            return Ok(false);
        };
        match node {
            Node::Lits(run) => push_run(run, bits),
            Node::Spare(symbol) => push_symbol(*symbol, bits),
            Node::Pad => push_symbol(Symbol::Low, bits),
            Node::Field { unit, count } => {
                push_zeros((*unit as u32).saturating_mul(least_times(*count)), bits)
            }
            Node::Seq(_) => self.push_parts(left - 1, node, MOST_NODES, bits),
            Node::Choice(_) => match self.shortest(node) {
                Some(part) => self.push_least(left - 1, part, bits),
                None => Ok(false),
            },
            Node::Times { count, part } => {
                self.push_turns(left - 1, *part, least_times(*count), bits)
            }
            Node::Window { .. } => Ok(false),
            Node::Named { part, .. } => self.push_least(left - 1, *part, bits),
            Node::Null => Ok(true),
            Node::Rest => Ok(true),
            Node::Many(_) => Ok(true),
            Node::Trunc(_) => Ok(true),
        }
    }

    /// Adds those of the first few parts of a node.
    #[cycle(least)]
    fn push_parts(&self, left: u8, node: &Node, count: u16, bits: &mut Vec<u8>) -> Found {
        for at in 0..count {
            let Some(part) = part_of(node, at) else {
                return Ok(true);
            };
            if !self.push_least(left, part, bits)? {
                return Ok(false);
            }
        }
        Ok(true)
    }

    /// Adds those of so many turns of a part.
    #[cycle(least)]
    fn push_turns(&self, left: u8, part: u16, turns: u32, bits: &mut Vec<u8>) -> Found {
        for _ in 0..turns {
            if bits.len() >= MOST_EXAMPLE {
                return Ok(false);
            }
            if !self.push_least(left, part, bits)? {
                return Ok(false);
            }
        }
        Ok(true)
    }

    /// Adds the fewest bits that lead to the first of the nodes that lead up to the root, if they are known.
    pub(crate) fn push_way(&self, up: &[u16], bits: &mut Vec<u8>) -> Found {
        for back in 0..up.len().saturating_sub(1) {
            let at = up.len() - 1 - back;
            let Some(node) = node_at(self.desc, up[at]) else {
                return Ok(false);
            };
            if !self.push_before(node, up[at - 1], bits)? {
                return Ok(false);
            }
        }
        Ok(true)
    }

    /// Adds what stands in a node before a part of it.
    fn push_before(&self, node: &Node, part: u16, bits: &mut Vec<u8>) -> Found {
        match node {
            Node::Seq(parts) => { self.push_parts(MOST_DEEP, node, place_in(parts, part), bits) },
            Node::Trunc(parts) => { self.push_parts(MOST_DEEP, node, place_in(parts, part), bits) },
            Node::Times { count, .. } => Ok(least_times(*count) > 0),
            Node::Window { count, .. } => Ok(least_times(*count) > 0),
            _ => Ok(true),
        }
    }

    /// Whether a node may begin with a bit at an octet position; `left` nodes are looked into.
    #[cycle(begins)]
    pub(crate) fn may_begin(&self, left: u8, number: u16, octet: u8, bit: u8) -> bool {
        if left == 0 {
            return true;
        }
        let Some(node) = node_at(self.desc, number) else {
            return false;
        };
        match node {
            Node::Lits(run) => run.len() > 0 && run.get(0).bit(octet as u32) == bit,
            Node::Null => false,
            Node::Seq(_) => self.part_begins(left - 1, node, octet, bit),
            Node::Trunc(_) => self.part_begins(left - 1, node, octet, bit),
            Node::Choice(_) => self.some_begins(left - 1, node, octet, bit),
            Node::Times { part, .. } => self.may_begin(left - 1, *part, octet, bit),
            Node::Many(part) => self.may_begin(left - 1, *part, octet, bit),
            Node::Window { part, .. } => self.may_begin(left - 1, *part, octet, bit),
            Node::Named { part, .. } => self.may_begin(left - 1, *part, octet, bit),
            _ => true,
        }
    }

    /// Whether a part of a node may, with only parts before it that may have no bits.
    #[cycle(begins)]
    fn part_begins(&self, left: u8, node: &Node, octet: u8, bit: u8) -> bool {
        for at in 0..MOST_NODES {
            let Some(part) = part_of(node, at) else {
                return false;
            };
            if self.may_begin(left, part, octet, bit) {
                return true;
            }
            if size_at(self.sizes, part).least > 0 {
                return false;
            }
        }
        false
    }

    /// Whether some part of a node may.
    #[cycle(begins)]
    fn some_begins(&self, left: u8, node: &Node, octet: u8, bit: u8) -> bool {
        for at in 0..MOST_NODES {
            let Some(part) = part_of(node, at) else {
                return false;
            };
            if self.may_begin(left, part, octet, bit) {
                return true;
            }
        }
        false
    }

    /// The first node behind one that may begin with a bit, by the nodes that lead up from it to the root.
    pub(crate) fn follower(&self, up: &[u16], octet: u8, bit: u8) -> Option<u16> {
        for at in 1..up.len() {
            let node = node_at(self.desc, up[at])?;
            match self.behind(node, up[at - 1], octet, bit) {
                Some(Some(part)) => return Some(part),
                Some(None) => return None,
                None => (),
            }
        }
        None
    }

    /// What may follow a part in its node: a part that may begin with the bit, or nothing past one that has bits.
    fn behind(&self, node: &Node, part: u16, octet: u8, bit: u8) -> Option<Option<u16>> {
        match node {
            Node::Seq(parts) => self.later(node, place_in(parts, part), octet, bit),
            Node::Trunc(parts) => self.later(node, place_in(parts, part), octet, bit),
            Node::Many(turn) => self.begun_by(*turn, octet, bit),
            Node::Times { part, .. } => self.begun_by(*part, octet, bit),
            _ => None,
        }
    }

    /// A node, if it may begin with the bit.
    fn begun_by(&self, number: u16, octet: u8, bit: u8) -> Option<Option<u16>> {
        if self.may_begin(MOST_DEEP, number, octet, bit) {
            Some(Some(number))
        } else {
            None
        }
    }

    /// The same among the parts of a node behind one of them.
    fn later(&self, node: &Node, place: u16, octet: u8, bit: u8) -> Option<Option<u16>> {
        for at in place.saturating_add(1)..MOST_NODES {
            let part = part_of(node, at)?;
            if self.may_begin(MOST_DEEP, part, octet, bit) {
                return Some(Some(part));
            }
            if size_at(self.sizes, part).least > 0 {
                return Some(None);
            }
        }
        None
    }
}
